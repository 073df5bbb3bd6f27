//! All rows that are made.

ghost use Rattle.std.specs.Prelude.{IsTrue, ◌+◌, ◌++◌, ◌∷◌, [], OnOk, OnErr, ◌≡◌, IfOk, ◌<◌, length};
ghost use Rattle.lean_elimination.specs.Arenas.{are_bounded, tracks};

use crate::row::Row;

/// The rows, each made of rows before it.
#[derive(Drop)]
pub(crate) struct Arena {
    pub(crate) rows: Vec<Row>,
    ghost bounded: { IsTrue (are_bounded rows.items (tracks rows.items)) },
}

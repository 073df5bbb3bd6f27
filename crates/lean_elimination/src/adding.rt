//! A row more.

ghost use Rattle.std.specs.Prelude.{IsTrue, ◌+◌, ◌≡◌, IfOk, Some};
ghost use Rattle.st_linear.specs.Linear.{are_within};
ghost use Rattle.lean_elimination.specs.Arenas.{tracks, tracked_row, IsMade};

use crate::arena::Arena;
use crate::row::Row;
use crate::stop::Refusal;

/// Adds a row.
pub(crate) fn add(arena: &mut Arena, row: Row) -> Result<usize, Refusal>
    requires { IsTrue (are_within (row.bound + 1) (tracked_row (tracks arena.old.rows.items) row).picks) }
    ensures { IfOk result (λ k. IsMade arena.old.rows.items arena.new.rows.items k (Some (tracked_row (tracks arena.old.rows.items) row))) }
{
    let made = arena.rows.len();
    arena.rows.push(row)?;
    Ok(made)
}

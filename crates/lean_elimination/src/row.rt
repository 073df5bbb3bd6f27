//! Working lines.

ghost use Rattle.std.specs.Prelude.{IsTrue, ◌^◌};
ghost use Rattle.st_linear.specs.Linear.{is_within, are_within};

use smallvec::SmallVec;

/// Variables and their coefficients.
pub(crate) type Entries = SmallVec<(u32, i64), 2>;

/// Where a row comes from: an input line, or two rows.
#[derive(Clone, Copy)]
pub(crate) enum Origin {
    Input(u32),
    Sum(Parts),
}

/// So many times one row and so many times another.
#[derive(Clone, Copy)]
pub(crate) struct Parts {
    pub(crate) x: i64,
    pub(crate) first: usize,
    pub(crate) y: i64,
    pub(crate) second: usize,
    ghost x_within: { IsTrue (is_within (2 ^ 62) x) },
    ghost y_within: { IsTrue (is_within (2 ^ 62) y) },
}

/// A line on the way. None of its multipliers of input lines is above the bound in size.
#[derive(Drop)]
pub(crate) struct Row {
    pub(crate) equal: bool,
    pub(crate) constant: i64,
    pub(crate) entries: Entries,
    pub(crate) origin: Origin,
    pub(crate) bound: u64,
    ghost constant_within: { IsTrue (is_within (2 ^ 62) constant) },
    ghost entries_within: { IsTrue (are_within (2 ^ 62) entries.items) },
}

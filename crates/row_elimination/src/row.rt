//! Working lines.

ghost use Rattle.std.specs.Prelude.{IsTrue, ◌^◌};
ghost use Rattle.st_linear.specs.Linear.{are_within};

use st_linear::Entries;

/// A line on the way, and the multiples of input lines that it is the sum of.
#[derive(Drop)]
pub(crate) struct Row {
    pub(crate) equal: bool,
    pub(crate) constant: i128,
    pub(crate) entries: Entries,
    pub(crate) picks: Entries,
    ghost entries_within: { IsTrue (are_within (2 ^ 100) entries.items) },
    ghost picks_within: { IsTrue (are_within (2 ^ 40) picks.items) },
}

//! A run as fairness sees it.

ghost use Rattle.std.specs.Prelude.{◌≡◌, ◌<◌, length, slice_get};
ghost use Rattle.run_judging.specs.Rows.{flags_at};

use observations::Fairness;

/// What fairness sees of a run: what is owed to each name, which names are enabled in each state, and the name of each step.
#[derive(Debug, Drop)]
pub struct Course {
    /// What is owed to each name.
    pub fairness: Vec<Fairness>,
    /// For each state a flag for each name.
    pub enabled: Vec<Vec<bool>>,
    /// The name of each step.
    pub taken: Vec<usize>,
}

/// The flags in a place.
pub(crate) fn row_at(rows: &[Vec<bool>], position: usize) -> &[bool]
    requires { position < length rows.now }
    ensures { result.now ≡ flags_at rows.now position }
{
    &rows[position]
}

impl Course {
    ghost use Rattle.run_judging.specs.Rows.{flags_at};

    /// How many states there are.
    pub fn positions(&self) -> usize
        ensures { result ≡ length self.now.enabled.items }
    {
        self.enabled.len()
    }

    /// Which names are enabled at a position.
    pub fn enabled_at(&self, position: usize) -> &[bool]
        requires { position < length self.now.enabled.items }
        ensures { result.now ≡ flags_at self.now.enabled.items position }
    {
        row_at(&self.enabled, position)
    }

    /// The name of the step from a position, if there is one.
    pub fn taken_at(&self, position: usize) -> Option<usize>
        ensures { result ≡ slice_get self.now.taken.items position }
    {
        self.taken.get(position).copied()
    }
}

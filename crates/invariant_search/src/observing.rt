//! Who is told how far a search is.

use crate::answer::Counts;

/// Is told how much was done, each time before a state in which the goal is false is looked for. It answers nothing, so it can change no
/// result.
pub trait Observer {
    fn at(&self, counts: Counts);
}

/// One that says nothing.
#[derive(Clone, Copy, Debug)]
pub struct Unobserved;

impl Observer for Unobserved {
    fn at(&self, _counts: Counts) {}
}

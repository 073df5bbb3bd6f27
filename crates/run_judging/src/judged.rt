//! What is judged of a goal on a run.

/// Whether a goal holds on a run. Positions count from 0.
#[derive(Clone, Copy, Debug, PartialEq, Eq)]
pub enum Judged {
    /// It holds from each position.
    Holds,
    /// This is the least position from which it fails.
    Fails(u32),
    /// In the state at this position, the first such one, a number on the way to a value of the goal is of size 2^126 or more.
    Unclear(u32),
}

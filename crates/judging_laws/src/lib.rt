//! Rounds and goals of one run as computed tests: laws.
//!
//! How many rounds begin at a position, and from where a goal first fails, are functions of what is seen of a run. They are
//! defined here in a few lines that go through all positions, and are never run. The laws say that they are what the
//! relations of `observations` and `run_judging` say, so that whatever is told by those is told by these.
#![tactic(auto)]

pub mod laws;

//! What the search answers.

use control_cubes::{Cube, State};
use st_form::TransName;
use st_program::Datum;

/// Why a question has no answer.
#[derive(Clone, Copy, Debug, PartialEq, Eq)]
pub enum Why {
    /// As many conditions were searched as may be.
    Budget,
    /// The search gave up on a condition, or left it open without a state.
    Wide,
    /// There would be more levels than may be.
    Levels,
}

/// Whether formulas are true in a state together, where lemmas hold.
#[derive(Drop)]
pub enum Answer {
    /// In none, because of the lemmas with these numbers.
    Never(Vec<u32>),
    /// In this one, where all lemmas hold that are allowed.
    State(State),
    Unknown(Why),
}

/// Whether a step leads into a cube from outside it.
#[derive(Drop)]
pub enum Entry {
    /// None does, because of the lemmas with these numbers.
    Blocked(Vec<u32>),
    /// From this state the step with this number does.
    Before(State, u32),
    Unknown(Why),
}

/// A transition, by its name, and the number of its mode, from 1.
#[derive(Clone, Copy, Debug, PartialEq, Eq)]
pub struct Move {
    pub name: TransName,
    pub mode: u32,
}

/// A run: the value of each variable at its beginning, and the moves in order.
#[derive(Drop)]
pub struct Run {
    pub store: Vec<Datum>,
    pub moves: Vec<Move>,
}

/// What the search says of a goal.
#[derive(Drop)]
pub enum Outcome {
    /// The goal follows from lemmas of the level `ALWAYS`, which together are inductive.
    Inductive,
    /// The goal is false at the end of this run.
    Refuted(Run),
    /// Nothing is known; with the cube that was left to be blocked, if there was one, and the level at which it was.
    Unknown { why: Why, left: Option<(Cube, u32)> },
}

/// How much was done.
#[derive(Clone, Copy, Debug, PartialEq, Eq)]
pub struct Counts {
    /// Conditions that were searched.
    pub queries: u64,
    /// The highest level so far.
    pub level: u32,
    /// Lemmas that stand.
    pub lemmas: u32,
    /// Cubes that were to be blocked.
    pub obligations: u64,
}

//! A run that was played, and what each goal comes to on it.

use crate::proofs::Spot;
use serde::Serialize;

/// What a component is at, or a variable's value, at a position of a run; and whether the move before it changed that.
#[derive(Serialize, Drop)]
pub struct Cell {
    pub name: String,
    pub value: String,
    pub changed: bool,
}

/// A position of a run: its state, which moves may be taken there, which is, with its statement, and how many rounds begin there.
#[derive(Serialize, Drop)]
pub struct Position {
    pub position: u64,
    pub state: Vec<Cell>,
    pub enabled: Vec<String>,
    pub taken: Option<String>,
    pub spot: Option<Spot>,
    pub rounds: u64,
}

/// A goal on a run. The verdict is `holds`, `untried` where it holds because the run has fewer rounds than the bound, `fails`, or
/// `unclear` where a number is too large; `at` is the position where it fails or is unclear.
#[derive(Serialize, Drop)]
pub struct GoalReport {
    pub name: String,
    pub kind: String,
    pub verdict: String,
    pub at: Option<u64>,
    pub bound: Option<String>,
    pub line: u64,
}

/// What is told of a run. `status` and `headline` are `step`'s.
#[derive(Serialize, Drop)]
pub struct RunReport {
    pub schema: String,
    pub status: u8,
    pub headline: String,
    pub program: String,
    pub proof: String,
    pub positions: Vec<Position>,
    pub goals: Vec<GoalReport>,
}

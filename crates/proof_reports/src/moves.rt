//! A state of a program, and the moves that may be taken from it.

use crate::proofs::Spot;
use crate::runs::Cell;
use serde::Serialize;

/// A move that may be taken: its name as a schedule writes it, its statement, and the state behind it. A cell is marked as
/// changed where the move changes it.
#[derive(Serialize, Drop)]
pub struct MoveReport {
    pub name: String,
    pub spot: Option<Spot>,
    pub state: Vec<Cell>,
}

/// What is told of the state to which a schedule leads. `status` and `headline` are `step`'s; `schedule` is the schedule once more,
/// laid out in one line, and `position` how many moves it has. Idling, which may always be taken, isn't among the moves.
#[derive(Serialize, Drop)]
pub struct MovesReport {
    pub schema: String,
    pub status: u8,
    pub headline: String,
    pub program: String,
    pub schedule: String,
    pub position: u64,
    pub state: Vec<Cell>,
    pub moves: Vec<MoveReport>,
}

//! What is told of proofs, of runs, of moves, of found equations and of faults, as plain data. Field names are those of
//! `docs/use/json.md`; screens and pages are made from it, and from nothing else.
#![tactic(auto)]

mod equations;
mod faults;
mod moves;
mod proofs;
mod runs;

pub use equations::{Equation, EquationReport};
pub use faults::{Fault, Severity};
pub use moves::{MoveReport, MovesReport};
pub use proofs::{Case, Failure, Item, Report, Row, Spot, StepReport, Turn};
pub use runs::{Cell, GoalReport, Position, RunReport};

//! Steps.

use st_form::TransName;
use st_program::{Datum, Residual, State};

/// A step of a part: its name and mode, what is left of the part, and the store behind it.
#[derive(Drop)]
pub struct Act {
    pub name: TransName,
    pub mode: u32,
    pub left: Residual,
    pub store: Vec<Datum>,
}

/// A step of a state: its name and mode, and the state behind it. Modes count from 1.
#[derive(Drop)]
pub struct Move {
    pub name: TransName,
    pub mode: u32,
    pub state: State,
}

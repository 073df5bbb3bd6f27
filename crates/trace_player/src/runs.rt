//! Runs as lists.

use st_form::TransName;
use st_program::State;

/// A run: its states, the name of each step, and the names that are enabled in each state.
#[derive(Drop)]
pub struct Played {
    pub states: Vec<State>,
    pub names: Vec<TransName>,
    pub enabled: Vec<Vec<TransName>>,
}

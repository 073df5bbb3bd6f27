//! Schedules.

use st_form::TransName;
use st_program::Datum;

/// A store to begin with, which has a datum for each variable, and the names of the steps.
#[derive(Drop)]
pub struct Schedule {
    pub store: Vec<Datum>,
    pub moves: Vec<TransName>,
}

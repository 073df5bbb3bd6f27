//! Linear equations between variables that hold where control is at one location: Karr's analysis, component by component.
#![tactic(auto)]

mod analysis;
mod equations;
mod finding;
mod guards;
mod modes;
mod spaces;

pub use equations::LocationEquation;
pub use finding::location_equations;

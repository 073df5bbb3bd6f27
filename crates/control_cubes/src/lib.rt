//! Cubes: sets of states that are said by where control may be, by truth values and by rows.
//!
//! A cube stands for all values that its rows allow, so no state is enumerated. Its complement is a clause, and the cubes that lead
//! into a cube by one step are cubes too. In the literature on model checking a cube is a conjunction of literals (Bradley, SAT-based
//! model checking without unrolling, 2011); here a component's literals are one set of places.
#![tactic(auto)]

mod copying;
mod cube;
mod fault;
mod forms;
mod implicant;
mod layout;
mod merging;
mod place_set;
mod rows;
mod state;

pub use cube::Cube;
pub use fault::CubeFault;
pub use forms::{negation, set_form, truth_form};
pub use layout::Layout;
pub use merging::merged;
pub use place_set::{Place, PlaceSet};
pub use rows::{is_parallel, opposite, row_value, tidy};
pub use state::State;

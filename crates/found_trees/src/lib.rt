//! Whether conditions have valid certificates, of whatever size: the search over lists finds each as a tree that shares its parts, and
//! nothing is unfolded.
#![tactic(auto)]

mod finding;

pub use control_states::Components;
pub use finding::{has_tree, have_trees};
pub use shared_search::Book;
pub use st_form::{Condition, Variable};

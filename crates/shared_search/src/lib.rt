//! The search for certificates over lists of conjuncts, each of which is searched once.
//!
//! What is done at a problem hangs on its conjuncts alone, and on what is decided of the components that have others inside, which
//! is its context (`sharing_laws`). So lists of conjuncts and contexts are numbers, and what was found for a list in a context is
//! remembered, as in the apply operation on binary decision diagrams (Bryant, 1986), from one condition to the next too. Where it
//! gives up nothing is said.
#![tactic(auto)]

mod book;
mod choices;
mod contexts;
mod decisions;
mod entries;
mod finding;
mod insides;
mod lines;
mod lists;
mod memo;
mod moves;
mod next_component;
mod sameness;
mod walk;

pub use book::Book;
pub use decisions::Decisions;
pub use finding::{certificate, find, find_tree, is_same};
pub use memo::Memo;
pub use next_component::component_for;

//! Linear equations over the variables and locations of a transition system that every mode keeps and that hold at the start, found
//! as a basis of a null space.
//!
//! The definitions and their laws stand in `equation_laws`; here is the code.
#![tactic(auto)]

mod equation;
mod fault;
mod finding;
mod requirements;
mod start;

pub use equation::Equation;
pub use fault::FindFault;
pub use finding::find;

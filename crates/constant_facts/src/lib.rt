//! Facts of the form "where control is at this location, this variable has this value" that hold in every state of every run, found
//! by constant propagation over a transition system.
#![tactic(auto)]

mod candidates;
mod fact;
mod fault;
mod finding;
mod keeping;
mod knowing;
mod starting;

pub use fact::{Constant, Fact};
pub use fault::FactFault;
pub use finding::{find, settled};

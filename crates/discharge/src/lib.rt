//! The conditions of a proof, discharged in parallel: blocks are checked, or certificates searched for, by any number of
//! workers, with the answer of one.
//!
//! A range of conditions is cut into halves that run by a fork and a join (Blumofe and others, *Cilk: an efficient
//! multithreaded runtime system*, 1995), until each piece has one worker or one condition. Each half of a check gets every second
//! condition, so that heavy ones that stand together are shared out; in a search each piece takes groups of conditions from a queue.
#![tactic(auto)]

mod checking;
mod deciding;
mod gates;
pub mod laws;
mod marks;
mod opened;
mod piece;
mod queue;
mod searching;
mod shares;
mod validity;

pub use cert_text::Block;
pub use checking::check_all;
pub use control_states::Components;
pub use deciding::{decide_all, decide_each};
pub use linear_prover::{Book, Verdict};
pub use marks::Undecided;
pub use searching::{first_undecided, verify_all};
pub use st_form::{Condition, Variable};
pub use st_outside::Gate;

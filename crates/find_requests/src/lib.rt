//! What is asked of a search for proofs: a proof text in which steps may leave out how their goals are proved.
#![tactic(auto)]

mod outline;
mod reading;
mod responses;
mod waits;

pub use outline::{Asks, Extent, step_extents};
pub use reading::{Request, Wanted, read_request, script_around};
pub use responses::Leading;
pub use waits::Staying;

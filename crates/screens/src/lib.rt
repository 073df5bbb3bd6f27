//! Reports as text for a terminal, with and without colours. No byte of a user's text reaches the terminal that would steer it.
#![tactic(auto)]

mod equations;
mod failures;
mod faults;
mod moves;
mod proofs;
mod runs;
mod screen;
mod spots;
mod states;

pub use equations::equations_screen;
pub use faults::faults_screen;
pub use moves::moves_screen;
pub use proofs::proof_screen;
pub use runs::run_screen;
pub use screen::{Style, shown};

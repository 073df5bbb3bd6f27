//! The answer to a proof whose conditions have valid certificates, wherever these come from: its goals hold.
#![tactic(auto)]

mod answering;
pub mod laws;

pub use answering::certified;
pub use posed_conditions::PosedProof;
pub use step_answers::{Answer, Status};

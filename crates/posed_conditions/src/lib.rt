//! A program and a proof of two texts with all that is made of them: names, control, the fair transition system, the script and
//! its conditions. What each step asks of the one before is proved here, once for all who show conditions, drawings and states.
#![tactic(auto)]

mod faults;
mod posing;
mod scripts;
mod translated;

pub use faults::PosingFault;
pub use posing::{PosedProof, pose};
pub use scripts::{PosedScript, pose_script};
pub use translated::{TranslatedProgram, translate_text};

//! What the parts of a program are called in reports, and places in texts as reports show them.
#![tactic(auto)]

mod naming;
mod places;

pub use naming::vocabulary;
pub use places::{piece, spot};

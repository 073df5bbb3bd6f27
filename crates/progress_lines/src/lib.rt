//! How far a work is, said on standard error where that is a terminal, once half a second has gone by.
#![tactic(auto)]

mod deciding;
mod pulse;
mod watching;

pub use deciding::Progress;
pub use pulse::Pulse;
pub use watching::Watch;

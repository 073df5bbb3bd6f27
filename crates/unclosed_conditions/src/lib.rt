//! Every condition that neither of two searches closes, where a proof is looked at for what it lacks.
#![tactic(auto)]

mod closing;

pub use closing::unclosed_conditions;
pub use open_conditions::{Components, Condition, Undecided, Variable, Verdict};

//! Every condition that isn't decided valid, where a proof is looked at for what it lacks.
#![tactic(auto)]

mod opened;

pub use discharge::{Components, Condition, Undecided, Variable, Verdict};
pub use opened::open_conditions;

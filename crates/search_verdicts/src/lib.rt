//! What the search says of a condition: types, with their readings as plain data.
#![tactic(auto)]

mod verdict;

pub use control_states::Alternative;
pub use elimination_laws::WideStage;
pub use st_certificate::Certificate;
pub use st_program::Datum;
pub use verdict::{PathKind, PathStep, Shown, Verdict};

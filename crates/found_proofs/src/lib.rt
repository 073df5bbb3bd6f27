//! Proofs that are found: of the goals of a text that says nothing of how they are proved.
//!
//! Lemmas are found by `invariant_search`; here they become a proof text, as short as it gets, or the schedule of a run on which a goal
//! fails. What is found is checked by who calls: a text by `verify`, a run by `trace`.
#![tactic(auto)]

mod answering;
mod answers;
mod attempts;
mod candidates;
mod chain_parts;
mod chain_rules;
mod choosing;
mod claims;
mod equations;
mod finding;
mod ground;
mod insertions;
mod joining;
mod layers;
mod level_rules;
mod naming;
mod progress;
mod proving;
mod responding;
mod schedules;
mod shortening;
mod staying;
mod steps;
mod subject;
mod writing;

pub use answers::{Failing, FindFault, Found, Missing, Proposal, Unfound};
pub use attempts::{ATTEMPTS, Attempt, share};
pub use finding::{Attempted, attempt_proofs};
pub use invariant_search::{Counts, Observer, Unobserved};

//! One given run, judged: how many consecutive rounds begin at each position, and where a goal first fails.
//!
//! A run is given by lists alone: which names are enabled in each state and which one each step has ([`Course`]), and flags
//! and numbers that say what formulas and expressions are in each state. Contracts speak of whatever observation these lists
//! show. Justice, compassion and the kinds of goals are those of Manna and Pnueli, *Temporal Verification of Reactive
//! Systems: Safety* (1995) and *Progress* (draft, 1996), read on finite runs by rounds.
#![tactic(auto)]

mod ahead;
mod counting;
mod course;
mod demands;
mod judged;
mod judging;

pub use counting::rounds;
pub use course::Course;
pub use judged::Judged;
pub use judging::{invariance_failure, response_failure, waiting_failure};

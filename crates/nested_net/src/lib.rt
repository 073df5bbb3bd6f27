//! Response by a nested net: nodes stand in groups, one inside the other, each with a base and a top. It generalizes rule RESP-C
//! (Manna and Pnueli, *Temporal Verification of Reactive Systems: Progress*, chapter 3), whose inner premises are proved by the
//! same rule again; its bound on rounds is this project's.
#![tactic(auto)]

mod cases;
mod faults;
mod forms;
mod levels;
mod listing;
mod making;
mod moving;
mod rule;
mod ways;

pub use faults::NestedFault;
pub use making::make_nested;
pub use rule::Nested;

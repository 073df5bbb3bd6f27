//! Response by a ranked net: each node has a base, a delay and a top, perhaps a group and perhaps a helper. Rule for response
//! under justice and compassion that generalizes RESP-J, CHAIN-J, WELL-J and RESP-C (Manna and Pnueli, *Temporal
//! Verification of Reactive Systems: Progress*); its bound on rounds is this project's.
#![tactic(auto)]

pub mod cases;
pub mod fairness;
mod faults;
mod forms;
mod listing;
mod making;
mod moving;
mod rule;
mod ways;

pub use faults::NetFault;
pub use making::make_net;
pub use rule::Ranked;

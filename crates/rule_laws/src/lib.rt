//! The conditions of each rule as a list, and the laws that they are enough.
//!
//! The rules are those of Manna and Pnueli: INV and nested waiting-for (*Temporal Verification of Reactive Systems:
//! Safety*), the rules for response under justice and compassion, generalized to ranked nets whose bound on rounds is
//! this project's (*Progress*), and verification diagrams (*Temporal Verification Diagrams*). The lists are plain data;
//! the crates above build them.
#![tactic(auto)]

pub mod laws;

//! Fair runs of programs: laws.
//!
//! A goal is proved of finite runs, and a response within a number of rounds. These laws say what it then is along infinite
//! ones: what holds on every run of a program holds along each of its fair computations, as Manna and Pnueli define them
//! (*Temporal Verification of Reactive Systems: Safety* and *Progress*), with no bound and no rounds; and a response is never
//! empty, since every run goes on to a fair computation.
#![tactic(auto)]

pub mod laws;

//! Fair computations: laws.
//!
//! Goals are proved of finite runs, and responses within a number of rounds. These laws say what follows for infinite runs:
//! on a fair one rounds follow each other endlessly from some position on, a response within rounds comes, and a run on
//! which rounds follow each other endlessly is fair. So what is proved of finite runs is what the books say of computations
//! (Manna and Pnueli, *Temporal Verification of Reactive Systems: Safety* and *Progress*). No program is known here.
#![tactic(auto)]

pub mod laws;

//! Goals from goals: laws on one run.
//!
//! What follows from invariances, waiting-for and responses that hold on a run: weaker formulas and larger bounds, responses
//! one after the other, and a response along which a waiting-for holds. Each law says of one observation what a proof step
//! may conclude that cites proved goals. The rules are those of Manna and Pnueli, *Temporal Verification of Reactive Systems:
//! Safety*, sections 1.4 and 3.3, and *Progress*, chapter 1, with bounds in rounds.
#![tactic(auto)]

pub mod laws;

//! Which rules fit which goals of a system, and which scripts are proofs, as definitions.
#![tactic(auto)]

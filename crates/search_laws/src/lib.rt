//! The search for certificates, as a function on plain data, and its laws.
//!
//! The search walks the problems of a condition depth first: it decides components, then boolean variables, then splits
//! disjunctions, and at last eliminates the lines. It is a case analysis with Fourier-Motzkin elimination at its leaves
//! (Schrijver, *Theory of Linear and Integer Programming*, 1986, section 12.2).
#![tactic(auto)]

pub mod laws;

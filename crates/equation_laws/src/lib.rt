//! Linear equations over the variables and locations of a transition system that every mode keeps and that hold at the start.
//!
//! They are a vector space, the null space of a matrix that is read on the system (Karr, Affine relationships among variables of a
//! program, 1976, for the elimination; linear invariants of transition systems as place invariants of Petri nets: Lautenbach and
//! Schmid, Use of Petri nets for proving correctness of concurrent process systems, 1974).
#![tactic(auto)]

pub mod laws;

//! The search for inductive invariants: IC3 over lifted cubes.
//!
//! Frames are sets of lemmas, each the complement of a cube, and grow with their level until one is inductive (Bradley, SAT-based
//! model checking without unrolling, 2011; Een, Mishchenko and Brayton, Efficient implementation of property directed reachability,
//! 2011). A query is the condition that a mode keeps a clause, as a proof by invariance has it. The modes of a program are guarded
//! substitutions, so what leads into a cube by a mode is a cube again: a chain of cubes that meets the beginning is a run, and
//! nothing has to be refined (as Cimatti and others have to, IC3 modulo theories via implicit predicate abstraction, 2014).
//!
//! The order of everything is fixed, so what is found is a function of program and goals. Nothing is promised of it but that the
//! search ends: who uses what it finds, checks it.
#![tactic(auto)]

mod answer;
mod beginning;
mod blocking;
mod closed;
mod enlarging;
mod entering;
mod general;
mod ic3;
mod keeping;
mod known;
mod lemma;
mod literals;
mod machine;
mod moving;
mod narrow;
mod observing;
mod pool;
mod posed;
mod prover;
mod reached;
mod search;
mod setting;
mod solver;
mod step;

pub use answer::{Answer, Counts, Entry, Move, Outcome, Run, Why};
pub use control_cubes::{Cube, CubeFault, Layout, Place, PlaceSet, State};
pub use lemma::{ALWAYS, Allowed, Lemma};
pub use machine::Machine;
pub use observing::{Observer, Unobserved};
pub use prover::FIRST_HINT;
pub use reached::{Edge, Reach};
pub use search::Search;
pub use step::Step;

//! Facts that the start gives and every mode keeps hold in every state of every run of a program.
#![tactic(auto)]

pub mod laws;

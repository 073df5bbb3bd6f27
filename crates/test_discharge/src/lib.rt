//! Tests that two pieces of the work on conditions run side by side.
#![tactic(auto)]

#[cfg(test)]
mod gate;
#[cfg(test)]
mod pieces;

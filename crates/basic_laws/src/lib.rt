//! Lemmas on truth values, numbers and options that several crates use and that speak of no type of theirs. There is no code.
#![tactic(auto)]

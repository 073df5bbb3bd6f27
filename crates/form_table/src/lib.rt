//! Formulas by number. Each formula that was made has a number, and its parts have smaller ones.
#![tactic(auto)]

mod adding;
mod beginnings;
mod choices;
mod conjuncts;
mod disjunctions;
mod firsts;
mod hashes;
mod joining;
mod lasting;
mod lists;
mod literals;
mod lookups;
mod matching;
mod memos;
mod nodes;
mod parts;
mod pools;
mod readings;
mod refutations;
mod restriction;
mod rows;
mod simplification;
mod splitting;
mod stores;
mod tables;

pub use tables::Table;

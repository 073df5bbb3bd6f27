//! Certificates entered into a table in which trees share their parts: a tree that is there has its number again.
//!
//! Trees are kept as in hash consing (Filliâtre and Conchon, Type-safe modular hash-consing, 2006): a node is looked for under its
//! hash, compared with what is found there, and kept once more only where it isn't the same.
#![tactic(auto)]

mod entering;
mod hashes;
mod nodes;
mod sameness;

pub use entering::shared;
pub use nodes::put;

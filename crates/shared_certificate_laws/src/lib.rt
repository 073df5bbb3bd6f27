//! Certificate texts of version 3 and their grammar: laws of the reading that `shared_certificates` promises.
#![tactic(auto)]

pub mod laws;

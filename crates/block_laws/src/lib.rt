//! What a text of certificates says of conditions: a function that finds the first condition without a valid block, and its
//! laws, by which it is the grammar of certificate texts and the validity of certificates.
#![tactic(auto)]

pub mod laws;

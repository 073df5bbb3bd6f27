//! What the search finds can be written, and what is written of it holds valid blocks: laws that join the search for
//! certificates to the grammar of certificate texts.
#![tactic(auto)]

pub mod laws;

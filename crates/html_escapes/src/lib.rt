//! Texts of others in HTML.
#![tactic(auto)]

mod escapes;
pub mod laws;

pub use escapes::push_escaped;

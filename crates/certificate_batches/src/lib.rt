//! A file of certificates is checked while it is read: its text comes in pieces, each block is taken as soon as it is whole,
//! and the conditions of up to 64 blocks are checked at once by all workers. Of the text only what isn't yet part of a block
//! is kept, and nothing once it is settled what all comes to.
#![tactic(auto)]

mod batches;
mod claims;
mod crew;
mod file;
mod finding;
mod following;
mod passing;
mod sheet;
mod turns;

pub use claims::Claims;
pub use file::check_file;
pub use finding::Finding;
pub use step_report::Reason;

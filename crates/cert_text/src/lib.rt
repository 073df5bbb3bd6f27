//! Certificate texts: blocks are read from bytes that come in any pieces, and written.
#![tactic(auto)]

mod blank;
mod control;
mod cuts;
mod fronts;
mod letters;
mod numbers;
mod pick_fronts;
mod picks;
mod pieces;
mod progress;
mod reader;
mod scan;
mod tree;
mod trees;
mod whole_picks;
mod whole_tokens;
mod words;
mod write;

pub use reader::{Block, CertReader, NextBlock};
pub use st_certificate::Certificate;
pub use write::{write_block, write_header};

//! Programs and proofs laid out to be read.
#![tactic(auto)]

mod brackets;
mod fault;
mod kind;
mod line;
mod lines;
mod paragraphs;
mod piece;
mod scanning;
mod spacing;
mod text;
mod writing;

pub use brackets::{closes, opens};
pub use fault::LayoutFault;
pub use st_tokens::TokenFault;
pub use text::laid_out;

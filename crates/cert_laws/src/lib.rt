//! Certificate texts are exactly their grammar: laws of the machine by which `cert_text` reads them.
//!
//! A grammar has two halves here, as usual: which tokens a block has (the productions of `cert_text`'s `Grammar`), and which
//! bytes spell tokens. The reader is neither: it goes byte by byte, and refuses a word or a number while it grows.
#![tactic(auto)]

pub mod laws;

//! Reading a text from its tokens, from left to right.
#![tactic(auto)]

mod fault;
mod looking;
mod mark;
mod sign;

pub use fault::ParseFault;
pub use looking::{
    RawName, advance, ahead, at_end, expect, name, name_ahead, numeral, place_of, refusal,
};
pub use mark::{Mark, same};
pub use sign::{Sign, is, is_name, numeral_in, sign_of};

//! How long blocks are as text, told before they are written.
//!
//! Each function takes the room for a text, in bytes, and answers what is left of it behind a part, or 0 where the part is
//! longer. So lengths are never added up, and none can be too large for a number.
#![tactic(auto)]

mod lengths;

pub use lengths::room_behind_block;

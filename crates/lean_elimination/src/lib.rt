//! Elimination of variables from lines in numbers of 64 bits, as far as a contradiction: the quick way before the whole one.
//!
//! It is the elimination that `elimination_laws` defines. A line that is made keeps the two lines that it was made of, in place of
//! its multiples of input lines; those are summed once, for the contradiction. Where a number grows it gives up.
#![tactic(auto)]

mod adding;
mod arena;
mod factors;
mod fate;
mod lent;
mod making;
mod merging;
mod multiples;
mod placing;
mod row;
mod stage;
mod stop;
mod top;

pub use lent::copied;
pub use top::refute;

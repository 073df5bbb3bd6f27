//! Linear forms over whole numbers: a constant and integer coefficients of numbered variables, every number below 2^100 in size.
//! Sums, multiples and replacements are exact, or are refused by name where a number grows too large.
#![tactic(auto)]

mod arithmetic;
mod division;
mod entries;
mod faults;
mod linear;
mod numbers;
mod rows;
mod substitution;

pub use entries::{Entries, join, push_entry, scale_entries};
pub use faults::LinFault;
pub use linear::Lin;
pub use numbers::{gcd, is_within, product_within, sum_within};
pub use rows::Line;

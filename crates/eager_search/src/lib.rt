//! A stronger search for certificates: it looks at the lines of a problem before each division.
//!
//! The search is that of satisfiability modulo linear arithmetic by splitting on demand (Barrett, Nieuwenhuis, Oliveras and Tinelli,
//! Splitting on demand in SAT modulo theories, 2006): lines that have no solution close a problem at once, a disjunction of which one
//! part is left is taken first, and a division that the branch below didn't use is left out, as in conflict-directed backjumping
//! (Prosser, Hybrid algorithms for the constraint satisfaction problem, 1993). Nothing is promised of the search but that it ends: what
//! it finds is checked, and handed out only if it is valid.
#![tactic(auto)]

mod basis;
mod carrying;
mod certifying;
mod choosing;
mod cuts;
mod cutting;
mod deciding;
mod finding;
mod guards;
mod items;
mod limits;
mod literals;
mod looking;
mod plans;
mod points;
mod rounding;
mod rows;
mod search;
mod showing;
mod solving;
mod splitting;
mod stages;
mod stop;
mod walk;

pub use finding::{find, refuting_state};
pub use search_verdicts::Shown;

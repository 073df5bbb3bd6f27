//! The conditions of a proof script over a program's transition system: for each step those of its rule, in the order of steps,
//! as Manna and Pnueli's rules ask (*Temporal Verification of Reactive Systems: Safety*, 1995, and *Progress*; *Temporal
//! Verification Diagrams*, 1994). A step may cite invariances that stand before it.
#![tactic(auto)]

mod cited;
mod faults;
mod rules;
mod scripts;
mod steps;

pub use faults::ObligationFault;
pub use scripts::{append_conditions, conditions_of};

//! The texts of workloads: mutual exclusion of so many processes by one semaphore, as a program with its proof (Manna and
//! Pnueli, *Temporal Verification of Reactive Systems: Safety*, 1995, section 1.4).
#![tactic(auto)]

mod parts;
mod texts;

pub use texts::workload_texts;

//! The texts that the program prints: refusals, conditions that aren't discharged, and what is proved.
//!
//! Each call appends a text to `out`. After want of memory part of it may have been appended.
#![tactic(auto)]

mod conditions;
mod ends;
mod goals;
mod limits;
mod naming;
mod pushing;
mod refusals;
mod searches;
mod sums;
mod traces;
mod trees;
mod usage;

pub use conditions::{Reason, not_proved};
pub use ends::{End, print};
pub use goals::{counted, proved, workload};
pub use limits::{limited, most};
pub use pushing::{push_number, push_text};
pub use refusals::{FaultKind, FileRole, read_fault, refused, trailing};
pub use run_judging::Judged;
pub use search_verdicts::{PathStep, Shown, WideStage};
pub use searches::{open, wide};
pub use st_certificate::Certificate;
pub use st_form::CondName;
pub use st_program::NameTable;
pub use st_tokens::LimitKind;
pub use sums::push_sum;
pub use temporal_goals::Step;
pub use traces::{illegal_move, illegal_start, moves_limited, played, value_limit};
pub use trees::node_count;
pub use usage::{Command, words_refused};

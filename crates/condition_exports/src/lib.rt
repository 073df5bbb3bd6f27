//! The conditions of a proof for other eyes: in words and formulas, and in SMT-LIB 2 for other solvers.
#![tactic(auto)]

mod entries;
mod linear_terms;
mod listing;
mod naming;
mod problems;
mod selection;
mod sentences;
mod smt_formulas;
mod symbols;

pub use entries::{ConditionEntry, ConditionList, condition_list};
pub use listing::listed;
pub use naming::condition_name;
pub use problems::smt_problems;
pub use selection::{ExportFault, selected};

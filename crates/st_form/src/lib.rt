//! Formulas over linear forms, their change and simplification, and the conditions that are made of them.
#![tactic(auto)]

mod behind;
mod conditions;
mod conjuncts;
mod counts;
mod formulas;
pub mod laws;
mod literals;
mod parts;
mod replacement;
mod sameness;
mod shared;
mod simplification;
mod variables;
mod widths;

pub use conditions::{CondName, Condition, Consequent, Part, Premise, TransName, conjunction};
pub use conjuncts::{in_place, joined_conjuncts, opened};
pub use formulas::{Form, copy_all};
pub use replacement::Change;
pub use sameness::{is_same, is_same_line};
pub use shared::SharedForm;
pub use simplification::simple_conjuncts;
pub use st_linear::{Lin, LinFault, Line};
pub use variables::Variable;

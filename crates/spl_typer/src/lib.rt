//! The typing rules of programs, and the translation of typed text to forms.
#![tactic(auto)]

mod composing;
mod inner;
pub mod laws;
mod measure;
mod names;
mod numbers;
mod parts;
mod paths;
mod program;
mod shapes;
mod statement;
mod walk;

pub use expression_typer::TypeFault;
pub use program::type_program;

//! Linear equations that were found for a program.

use serde::Serialize;

/// An equation by the name of its step, and the step as proof text; none where it was left out.
#[derive(Serialize, Drop)]
pub struct Equation {
    pub name: String,
    pub text: Option<String>,
}

/// What was found for a program. `status` and `headline` are `step`'s.
#[derive(Serialize, Drop)]
pub struct EquationReport {
    pub schema: String,
    pub status: u8,
    pub headline: String,
    pub program: String,
    pub equations: Vec<Equation>,
}

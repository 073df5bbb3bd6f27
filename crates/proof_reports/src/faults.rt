//! Why a text is refused, and what is accepted and yet says little.

use crate::proofs::Spot;
use serde::Serialize;

/// Whether a text is refused, or says little.
#[derive(Clone, Copy, Debug, Serialize)]
#[serde(rename_all = "lowercase")]
pub enum Severity {
    Error,
    Warning,
}

/// A fault of a text. `code` is its kind, as `step` names it and as `milkhour explain` takes it. The first spot is where it is,
/// and the others stand beside it; `expected` is what may stand there, and `help` how it is mended.
#[derive(Serialize, Drop)]
pub struct Fault {
    pub severity: Severity,
    pub code: String,
    pub sentence: String,
    pub spots: Vec<Spot>,
    pub expected: Vec<String>,
    pub help: Vec<String>,
}

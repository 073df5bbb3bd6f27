//! Reports as JSON. The forms are those of `docs/use/json.md`.

use super::data::Told;
use crate::trouble::Trouble;
use explanations::Report;
use proof_reports::Fault;
use serde::Serialize;
use serde_json::to_string_pretty;
use std::alloc::Global;

/// A report with the warnings on its texts.
#[derive(Serialize, Drop)]
struct Warned<'a> {
    #[serde(flatten)]
    report: &'a Report,
    warnings: &'a [Fault],
}

/// A document with a line feed at its end.
pub fn document<T: Serialize>(alloc: Global, value: &T) -> Result<Vec<u8>, Trouble> {
    match to_string_pretty(alloc, value) {
        Ok(mut text) => {
            text.push_str("\n")?;
            Ok(text.into_bytes())
        }
        Err(_) => Err(Trouble::Memory),
    }
}

/// The document of an answer.
pub fn document_of(alloc: Global, told: &Told, warnings: &[Fault]) -> Result<Vec<u8>, Trouble> {
    match told {
        Told::Proof(report) => document(alloc, &Warned { report, warnings }),
        Told::Run(report) => document(alloc, &**report),
        Told::Moves(report) => document(alloc, &**report),
        Told::Equations(report) => document(alloc, &**report),
        Told::Refusal(refusal) => document(alloc, &**refusal),
    }
}

//! What is told of texts without being asked.

use crate::diagnostics::tell;
use crate::protocol::{Diagnostic, Published};
use crate::replies::notify;
use crate::texts::Pair;
use proof_reports::StepReport;
use st_memory::Memory;
use std::alloc::Global;

pub fn publish(
    alloc: Global,
    out: &mut Vec<u8>,
    uri: &str,
    diagnostics: Vec<Diagnostic>,
) -> Result<(), Memory> {
    let params = Published {
        uri: String::from_str(alloc, uri)?,
        diagnostics,
    };
    notify(alloc, out, "textDocument/publishDiagnostics", params)
}

/// Tells all of a pair of texts, and answers what became of each step where the conditions were decided. Where both stand in one
/// file, it is told of this file at once.
pub fn publish_pair(
    alloc: Global,
    out: &mut Vec<u8>,
    pair: &Pair,
    conditions: bool,
) -> Result<Option<Vec<StepReport>>, Memory> {
    let mut told = tell(alloc, pair, conditions)?;
    match &pair.proof {
        Some(proof) if proof.uri.as_str() != pair.program.uri.as_str() => {
            publish(alloc, out, proof.uri.as_str(), told.proof)?;
        }
        _ => {
            for diagnostic in told.proof {
                told.program.push(diagnostic)?;
            }
        }
    }
    publish(alloc, out, pair.program.uri.as_str(), told.program)?;
    Ok(told.steps)
}

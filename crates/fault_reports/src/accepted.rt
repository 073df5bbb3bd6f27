//! What is accepted and yet says little: a program that no state begins, a proof without steps, and a claim that says nothing. That no
//! state satisfies `where` is asked of the search, unless the words show a state: then each invariance holds at the start, even `0 = 1`.

ghost use Rattle.posed_conditions.specs.Translated.{IsTranslated};
ghost use Rattle.posed_conditions.specs.Posed.{IsPosed};

use crate::asking::{open_of, posed};
use crate::claims::empty_claims;
use crate::source::{Source, TextFile, word_of};
use crate::starts::begins_plainly;
use posed_conditions::PosedProof;
use proof_reports::{Fault, Severity};
use source_places::{Span, step_places};
use st_memory::Memory;
use std::alloc::Global;

/// A warning.
pub(crate) fn warning(
    alloc: Global,
    source: &Source,
    span: Span,
    code: &str,
    sentence: &str,
    help: &str,
) -> Result<Fault, Memory> {
    Ok(Fault {
        severity: Severity::Warning,
        code: String::from_str(alloc, code)?,
        sentence: String::from_str(alloc, sentence)?,
        spots: vec![in alloc; source.spot(alloc, span, "")?]?,
        expected: Vec::new(alloc),
        help: vec![in alloc; String::from_str(alloc, help)?]?,
    })
}

/// A claim that no state satisfies; the first of its conditions says that it holds at the start.
const NEVER: &[u8] = b"invariant never: 0 = 1;";

/// Whether the first condition is decided valid.
fn holds_at_start(alloc: Global, posed: &PosedProof) -> Result<bool, Memory>
    requires translated { IsTranslated posed.now.source }
    requires posed { IsPosed posed.now.source posed.now.proof }
{
    let open = open_of(alloc, posed)?;
    Ok(open.first().is_none_or(|undecided| 0 < undecided.place))
}

/// Whether no state satisfies what a program says of its begin.
fn begins_nowhere(alloc: Global, program: &[u8]) -> Result<bool, Memory> {
    match posed(alloc, program, NEVER)? {
        Some(posed) => holds_at_start(alloc, &posed),
        None => Ok(false),
    }
}

/// The warning on a program that no state begins.
fn of_program(alloc: Global, source: &Source) -> Result<Option<Fault>, Memory> {
    let Some(first) = source.tokens.iter().find(|token| word_of(token) == "where") else {
        return Ok(None);
    };
    if begins_plainly(alloc, source)? || !begins_nowhere(alloc, source.file.text)? {
        return Ok(None);
    }
    Ok(Some(warning(
        alloc,
        source,
        Span::of(first),
        "NoStart",
        "no state satisfies what stands behind `where`: there is no run, and each goal holds of none",
        "look for formulas that contradict each other",
    )?))
}

/// The warning on a proof without steps.
fn no_steps(alloc: Global, source: &Source) -> Result<Fault, Memory> {
    warning(
        alloc,
        source,
        Span { from: 0, to: 0 },
        "NoSteps",
        "this proof has no step, so nothing is proved",
        "write `invariant NAME: FORMULA;`",
    )
}

/// The warnings on a proof that is read.
fn of_proof(
    alloc: Global,
    program: &Source,
    proof: TextFile,
    out: &mut Vec<Fault>,
) -> Result<(), Memory> {
    let source = Source::new(alloc, proof)?;
    let steps = step_places(alloc, proof.text)?;
    if steps.is_empty() {
        out.push(no_steps(alloc, &source)?)?;
    }
    for empty in &empty_claims(alloc, program, &source, &steps)? {
        out.push(warning(
            alloc,
            &source,
            empty.span,
            "Empty",
            empty.sentence,
            "claim what isn't so by itself",
        )?)?;
    }
    Ok(())
}

/// The warnings on a program and a proof that are read.
pub fn warnings(alloc: Global, program: TextFile, proof: TextFile) -> Result<Vec<Fault>, Memory> {
    let mut out = Vec::new(alloc);
    let source = Source::new(alloc, program)?;
    if let Some(fault) = of_program(alloc, &source)? {
        out.push(fault)?;
    }
    of_proof(alloc, &source, proof, &mut out)?;
    Ok(out)
}

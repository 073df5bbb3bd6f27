//! Whether the goals of a proof hold. Of a large program certificates are looked for by number first, since `step` has no place for what
//! they unfold to. Where the search of `step` leaves a condition open, certificates are made of all conditions by it and by the stronger
//! search, and `step` checks them: so nothing rests on how they were found.

ghost use Rattle.std.specs.Prelude.{IfOk, IfSome};
ghost use Rattle.std.specs.Thread.{IsSync};
ghost use Rattle.stronger_answers.specs.Stronger.{IsAccepted, IsCertifying, IsCheckedBy, IsSearched, IsStronger};

use crate::certificates::certificates;
use milkhour_run::{Answer, Question, Status, Texts, answer};
use st_memory::Memory;
use st_outside::{Gate, OpenGate};
use std::alloc::Global;
use std::thread::Threads;
use tree_answers::found;

/// The certificates that are found, where both texts are there. That of the condition with a number is looked for first.
fn certificates_of(
    alloc: Global,
    texts: &Texts<'_>,
    first: u32,
) -> Result<Option<Vec<u8>>, Memory> {
    match (texts.program, texts.proof) {
        (Some(program), Some(proof)) => certificates(alloc, program, proof, first),
        _ => Ok(None),
    }
}

/// What `check` answers with certificates, if it is that the goals hold.
fn checked<R: Threads + Sync>(
    rt: &R,
    alloc: Global,
    workers: u32,
    texts: &Texts<'_>,
    certificates: &[u8],
) -> Result<Option<Answer>, Memory>
    ensures { IfOk result (λ o. IfSome o (IsCheckedBy texts.now certificates.now)) }
{
    let certified = Texts {
        program: texts.program,
        proof: texts.proof,
        third: Some(certificates),
    };
    let found = answer(rt, alloc, Question::Check, workers, &certified, &OpenGate)?;
    if found.status == Status::Proved {
        return Ok(Some(found));
    }
    Ok(None)
}

/// The certificates that are found, with what `check` answers with them, if it is that the goals hold.
fn certified_answer<R: Threads + Sync>(
    rt: &R,
    alloc: Global,
    workers: u32,
    texts: &Texts<'_>,
    number: u32,
) -> Result<Option<(Vec<u8>, Answer)>, Memory>
    ensures { IfOk result (λ o. IfSome o (λ p. IsCheckedBy texts.now p.0.items p.1)) }
{
    let Some(found) = certificates_of(alloc, texts, number)? else {
        return Ok(None);
    };
    match checked(rt, alloc, workers, texts, &found)? {
        Some(second) => Ok(Some((found, second))),
        None => Ok(None),
    }
}

/// What `verify` answers, or, where that leaves a condition open, what `check` answers with the certificates that the stronger search finds.
/// The gate is told what `verify` tells it.
fn searched<R: Threads + Sync, G: Gate + Sync>(
    rt: &R,
    alloc: Global,
    workers: u32,
    texts: &Texts<'_>,
    gate: &G,
) -> Result<Answer, Memory>
    ensures { IfOk result (IsSearched texts.now) }
{
    let first = answer(rt, alloc, Question::Verify, workers, texts, gate)?;
    let Status::NotProved(number) = first.status else {
        return Ok(first);
    };
    match certified_answer(rt, alloc, workers, texts, number)? {
        Some((_, second)) => Ok(second),
        None => Ok(first),
    }
}

/// Whether the goals of a proof hold: of a large program whose conditions have certificates, that they do; else what `verify` answers, or,
/// where that leaves a condition open, what `check` answers with the certificates that the stronger search finds. The gate is told what
/// `verify` tells it, and nothing where `verify` isn't asked.
pub fn verified<R: Threads + Sync, G: Gate + Sync>(
    rt: &R,
    alloc: Global,
    workers: u32,
    texts: &Texts<'_>,
    gate: &G,
) -> Result<Answer, Memory>
    // It is that the goals hold, since each condition has a certificate; or the answer of `verify`, or where that leaves a condition open, one
    // of `check` that the goals hold.
    ensures { IfOk result (IsStronger texts.now) }
{
    match found(alloc, texts)? {
        Some(proved) => Ok(proved),
        None => searched(rt, alloc, workers, texts, gate),
    }
}

/// Certificates of all conditions that `check` accepts, if they are found. That of the condition with a number, which `prove` left open, is
/// looked for first.
fn certified<R: Threads + Sync>(
    rt: &R,
    alloc: Global,
    workers: u32,
    texts: &Texts<'_>,
    number: u32,
) -> Result<Option<Vec<u8>>, Memory>
    ensures { IfOk result (λ o. IfSome o (λ v. IsAccepted texts.now v.items)) }
{
    match certified_answer(rt, alloc, workers, texts, number)? {
        Some((found, _)) => Ok(Some(found)),
        None => Ok(None),
    }
}

/// Certificates of all conditions: what `prove` answers, or, where that leaves a condition open, those that the stronger search finds, if
/// `check` accepts them. The gate is told what `prove` tells it.
pub fn proved<R: Threads + Sync, G: Gate + Sync>(
    rt: &R,
    alloc: Global,
    workers: u32,
    texts: &Texts<'_>,
    gate: &G,
) -> Result<Answer, Memory>
    // It is the answer of `prove`, or where that leaves a condition open, a text that `check` accepts.
    ensures { IfOk result (IsCertifying texts.now) }
{
    let first = answer(rt, alloc, Question::Prove, workers, texts, gate)?;
    let Status::NotProved(number) = first.status else {
        return Ok(first);
    };
    match certified(rt, alloc, workers, texts, number)? {
        Some(text) => Ok(Answer {
            status: Status::Proved,
            text,
        }),
        None => Ok(first),
    }
}

//! Who judges what was found: a proof is verified, and a run is judged by the goal that fails on it.

use milkhour_run::{Status, Texts};
use refuted_goals::refutes;
use st_memory::Memory;
use st_outside::OpenGate;
use std::alloc::Global;
use std::thread::Threads;
use stronger_answers::verified;

/// The program over which proofs and runs are judged, how many questions a search may ask, and the names by which the texts are
/// spoken of.
#[derive(Clone, Copy)]
pub struct Subject<'a> {
    pub alloc: Global,
    pub workers: u32,
    pub budget: u64,
    pub program: &'a [u8],
    /// The program, where the proof stands behind it in one file.
    pub front: Option<&'a [u8]>,
    pub program_name: &'a str,
    pub proof_name: &'a str,
}

/// Whether a proof of a program is verified, by the search of `step` or by the stronger one.
fn verifies<'x, R: Threads + Sync>(
    rt: &R,
    alloc: Global,
    workers: u32,
    program: &'x [u8],
    proof: &'x [u8],
) -> Result<bool, Memory> {
    let texts = Texts {
        program: Some(program),
        proof: Some(proof),
        third: None,
    };
    let answer = verified(rt, alloc, workers, &texts, &OpenGate)?;
    Ok(answer.status == Status::Proved)
}

/// Whether a proof is verified.
pub fn is_proof<R: Threads + Sync>(
    rt: &R,
    subject: &Subject<'_>,
    proof: &[u8],
) -> Result<bool, Memory> {
    verifies(rt, subject.alloc, subject.workers, subject.program, proof)
}

/// Whether the last goal of a proof fails on the run that a schedule gives.
pub fn is_refuted(subject: &Subject<'_>, proof: &[u8], schedule: &[u8]) -> Result<bool, Memory> {
    refutes(subject.alloc, subject.program, proof, schedule)
}

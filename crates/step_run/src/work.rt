//! The work that a request asks for, up to the output text.

ghost use Rattle.std.specs.Prelude.{◌≡◌, ◌<◌, IfOk};
ghost use Rattle.std.specs.Thread.{IsSync};
ghost use Rattle.st_outside.specs.Faults.{NoneFell};
ghost use Rattle.step_words.specs.Definition.{words_of};
ghost use Rattle.step_words.specs.Request.{plain_request, request_of, IsStated};
ghost use Rattle.step_plan.specs.Plan.{Follows};
ghost use Rattle.step_run.specs.Plans.{plan_for, plan_of};

use crate::pipeline::{check, find, prove, trace, verify};
use crate::workload::workload;
use st_memory::Memory;
use st_outside::{Files, Gate};
use std::alloc::Global;
use std::thread::Threads;
use step_plan::{End, Ended, end};
use step_words::laws::requests_are_stated;
use step_words::{Request, WordsFault, read_request};

/// Does what a request asks for.
fn answer<R: Threads + Sync, F: Files, G: Gate + Sync>(
    rt: &R,
    alloc: Global,
    files: &mut F,
    gate: &G,
    workers: u32,
    request: Request,
) -> Result<Ended, Memory>
    requires workers { 0 < workers }
    requires stated { IsStated (plain_request request) }
    ensures follows { IfOk result (Follows (F.told files.old) (F.faults files.old) (F.faults files.new) (plan_for (plain_request request.entry))) }
    ensures same { F.told files.new ≡ F.told files.old }
    ensures later { NoneFell (F.faults files.old) (F.faults files.new) }
{
    match request {
        Request::Check(program, proof, certificates) => check(
            rt,
            alloc,
            files,
            gate,
            workers,
            program,
            proof,
            certificates,
        ),
        Request::Verify(program, proof) => {
            verify(rt, alloc, files, gate, workers, program, proof)
        }
        Request::Prove(program, proof) => prove(alloc, files, program, proof),
        Request::Workload(n) => workload(alloc, n),
        Request::Trace(program, proof, schedule) => trace(alloc, files, program, proof, schedule),
        Request::Invariants(program) => find(alloc, files, program),
    }
}

/// Does the work that the words ask for.
pub fn work<R: Threads + Sync, F: Files, G: Gate + Sync>(
    rt: &R,
    alloc: Global,
    files: &mut F,
    gate: &G,
    words: &[String],
) -> Result<Ended, Memory>
    ensures follows { IfOk result (Follows (F.told files.old) (F.faults files.old) (F.faults files.new) (plan_of (request_of (words_of words.now)))) }
    ensures same { F.told files.new ≡ F.told files.old }
    ensures later { NoneFell (F.faults files.old) (F.faults files.new) }
{
    requests_are_stated();
    match read_request(alloc, words) {
        Ok(line) => answer(rt, alloc, files, gate, line.workers, line.request),
        Err(WordsFault::Refused) => end(alloc, End::Words),
        Err(WordsFault::Memory) => Err(Memory),
    }
}

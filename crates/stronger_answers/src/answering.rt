//! The answer to any question.

ghost use Rattle.std.specs.Prelude.{IfOk};
ghost use Rattle.std.specs.Thread.{IsSync};
ghost use Rattle.stronger_answers.specs.Stronger.{IsAnswered};

use crate::verifying::{proved, verified};
use milkhour_run::{Answer, Question, Texts, answer};
use st_memory::Memory;
use st_outside::Gate;
use std::alloc::Global;
use std::thread::Threads;

/// What is answered to a question over these texts: to `verify` and `prove` by both searches, and to the others what `step` answers. The
/// number of workers, from 1 to 64, changes no answer, and neither does the gate, which is told how far the conditions are decided.
pub fn answered<R: Threads + Sync, G: Gate + Sync>(
    rt: &R,
    alloc: Global,
    question: Question,
    workers: u32,
    texts: &Texts<'_>,
    gate: &G,
) -> Result<Answer, Memory>
    ensures { IfOk result (IsAnswered question texts.now) }
{
    match question {
        Question::Check => answer(rt, alloc, Question::Check, workers, texts, gate),
        Question::Verify => verified(rt, alloc, workers, texts, gate),
        Question::Prove => proved(rt, alloc, workers, texts, gate),
        Question::Trace => answer(rt, alloc, Question::Trace, workers, texts, gate),
        Question::Invariants => answer(rt, alloc, Question::Invariants, workers, texts, gate),
    }
}

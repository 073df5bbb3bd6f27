//! The answer of `step` to words over files, as a value.

ghost use Rattle.std.specs.Prelude.{◌≡◌, [], IfOk, IfSome, Some};
ghost use Rattle.std.specs.Thread.{IsSync};
ghost use Rattle.st_outside.specs.Sink.{behind};
ghost use Rattle.step_words.specs.Definition.{words_of};
ghost use Rattle.step_words.specs.Request.{request_of};
ghost use Rattle.step_plan.specs.declared.status.Status.{Status};
ghost use Rattle.step_plan.specs.Plan.{outcome_of};
ghost use Rattle.step_plan.specs.Ending.{UnlessFault, IsReached, IsReadFault};
ghost use Rattle.step_run.specs.Headline.{Headline, Exactly};
ghost use Rattle.step_run.specs.Plans.{plan_of};
ghost use Rattle.step_run.specs.Request.{NamesFile};

use crate::TextSink;
use st_memory::Memory;
use st_outside::{Files, Gate};
use std::alloc::Global;
use std::thread::Threads;
use step_run::{Status, step_run};

/// A status with its text.
#[derive(Drop)]
pub struct Answer {
    pub status: Status,
    pub text: Vec<u8>,
}

/// What `step` answers to these words, the program's name first, over these files; the gate is told how far that is. Want of memory is the refusal, so the
/// status of an answer is never 9, nor 7, as the sink fails for no other cause.
pub fn answered<R: Threads + Sync, F: Files, G: Gate + Sync>(
    rt: &R,
    alloc: Global,
    words: &[String],
    files: &mut F,
    gate: &G,
) -> Result<Answer, Memory>
    // Where the files' bytes are told, status and text are those of the words and these bytes.
    ensures outcome { IfOk result (λ a. UnlessFault a.status (IfSome (outcome_of (F.told files.old) (plan_of (request_of (words_of words.now))))
        (IsReached a.status (Some []) (Some a.text.items)))) }

    // With status 0 the text names goals, which hold on every run of the program.
    ensures headline { IfOk result (λ a. a.status ≡ Status.Proved → Headline (F.told files.old) (λ text. Some a.text.items ≡ behind (Some []) text) (request_of (words_of words.now))) }

    // Status 0 comes exactly where the texts are well formed, and all conditions are discharged or decided.
    ensures exact { IfOk result (λ a. UnlessFault a.status (Exactly (F.told files.old) a.status (request_of (words_of words.now)))) }

    // What is lent tells the same.
    ensures same { F.told files.new ≡ F.told files.old }

    // With status 6 the text is that of a read fault: of a file that the words name, that the run came to, and whose count rose.
    ensures reads { IfOk result (λ a. a.status ≡ Status.ReadFault → IsReadFault (NamesFile (request_of (words_of words.now))) (F.told files.old) (plan_of (request_of (words_of words.now)))
        (F.faults files.old) (F.faults files.new) a.text.items) }
{
    let mut out = TextSink::new(alloc);
    let status = step_run(rt, alloc, words, files, &mut out, gate);
    match status {
        Status::Memory | Status::WriteFault => Err(Memory),
        _ => Ok(Answer {
            status,
            text: out.into_text(),
        }),
    }
}

ghost use Rattle.std.specs.Prelude.{◌≡◌, ◌<◌, IfSome};
ghost use Rattle.std.specs.Thread.{IsSync};
ghost use Rattle.st_outside.specs.Faults.{NoneFell};
ghost use Rattle.st_outside.specs.Sink.{behind};
ghost use Rattle.step_words.specs.Definition.{words_of};
ghost use Rattle.step_words.specs.Request.{request_of};
ghost use Rattle.step_plan.specs.declared.status.Status.{Status};
ghost use Rattle.step_plan.specs.Plan.{outcome_of};
ghost use Rattle.step_plan.specs.Ending.{UnlessFault, IsReached, IsReadFault, IsOutput, Written, Causes, NothingFailed, EndsHonestly};
ghost use Rattle.step_run.specs.Headline.{Headline, Exactly};
ghost use Rattle.step_run.specs.Plans.{plan_of};
ghost use Rattle.step_run.specs.Request.{NamesFile};

use crate::laws::status_zero_is_exact;
use crate::work::work;
use st_outside::{Files, Gate, Sink};
use std::alloc::Global;
use std::thread::Threads;
use step_plan::{Status, write_whole};

/// Does what the words ask for, over the files and the sink that are handed in.
pub fn step_run<R: Threads + Sync, F: Files, S: Sink, G: Gate + Sync>(
    rt: &R,
    alloc: Global,
    words: &[String],
    files: &mut F,
    out: &mut S,
    gate: &G,
) -> Status
    // Where the files' bytes are told, the status and the output text are those of the words and these bytes.
    ensures outcome { UnlessFault result (IfSome (outcome_of (F.told files.old) (plan_of (request_of (words_of words.now))))
        (IsReached result (S.taken out.old) (S.taken out.new))) }

    // With status 0 the output names goals, which hold on every finite run of the program, a response within its bound of rounds.
    ensures headline { result ≡ Status.Proved → Headline (F.told files.old) (λ text. S.taken out.new ≡ behind (S.taken out.old) text) (request_of (words_of words.now)) }

    // Status 0 comes exactly where the texts are well formed, and all conditions are discharged or decided.
    ensures exact { UnlessFault result (Exactly (F.told files.old) result (request_of (words_of words.now))) }

    // The sink has the output text, or a proper prefix of it, or nothing of it.
    ensures written { Written result (S.taken out.old) (S.taken out.new)
        (IsOutput (NamesFile (request_of (words_of words.now))) (F.told files.old) (plan_of (request_of (words_of words.now))) (F.faults files.old) (F.faults files.new))
        (IsReadFault (NamesFile (request_of (words_of words.now))) (F.told files.old) (plan_of (request_of (words_of words.now))) (F.faults files.old) (F.faults files.new)) }

    // Where nothing failed, the run ends as the words and the bytes say, or memory was refused.
    ensures honest { NothingFailed (NamesFile (request_of (words_of words.now))) (F.faults files.old) (F.faults files.new) (S.faults out.old) (S.faults out.new)
        → IfSome (outcome_of (F.told files.old) (plan_of (request_of (words_of words.now)))) (EndsHonestly result (S.taken out.old) (S.taken out.new)) }

    // Which counts rose.
    ensures causes { Causes result (F.faults files.old) (F.faults files.new) (S.faults out.old) (S.faults out.new) }
    ensures write_fault { S.faults out.old < S.faults out.new → result ≡ Status.WriteFault }

    // What is lent tells the same, and no count has fallen.
    ensures same { F.told files.new ≡ F.told files.old }
    ensures later { NoneFell (F.faults files.old) (F.faults files.new) }
{
    status_zero_is_exact();
    match work(rt, alloc, files, gate, words) {
        Err(_) => Status::Memory,
        Ok(ended) => match write_whole(out, ended.text.as_slice()) {
            Ok(()) => ended.status,
            Err(_) => Status::WriteFault,
        },
    }
}

//! The answer to a question, as `step` gives it.

ghost use Rattle.std.specs.Prelude.{◌≡◌, ◌≤◌, [], IfOk, IfSome, Some};
ghost use Rattle.std.specs.Thread.{IsSync};
ghost use Rattle.st_outside.specs.Sink.{behind};
ghost use Rattle.step_plan.specs.declared.status.Status.{Status};
ghost use Rattle.step_plan.specs.Plan.{outcome_of};
ghost use Rattle.step_plan.specs.Ending.{UnlessFault, IsReached};
ghost use Rattle.step_run.specs.Headline.{Headline, Exactly};
ghost use Rattle.step_run.specs.Plans.{plan_for};
ghost use Rattle.milkhour_run.specs.Held.{told_in};
ghost use Rattle.milkhour_run.specs.Asked.{asked, LacksText};

use crate::Question;
use crate::held_texts::{HeldTexts, Texts};
use crate::step_words_of::words_for;
use st_memory::Memory;
use st_outside::Gate;
use std::alloc::Global;
use std::thread::Threads;
use step_answers::{Answer, answered};
use step_words::laws::named_forms_are_taken;

/// As many workers as are asked for, from 1 to 64.
fn crew(workers: u32) -> u32
    ensures least { 1 ≤ result }
    ensures most { result ≤ 64 }
{
    if workers < 1 {
        return 1;
    }
    if 64 < workers {
        return 64;
    }
    workers
}

/// What `step` answers to a question over these texts. The number of workers, from 1 to 64, changes no answer,
/// and neither does the gate, which is told how far the conditions are decided.
pub fn answer<R: Threads + Sync, G: Gate + Sync>(
    rt: &R,
    alloc: Global,
    question: Question,
    workers: u32,
    texts: &Texts<'_>,
    gate: &G,
) -> Result<Answer, Memory>
    // Where the texts are there, status and text are those of `step`.
    ensures outcome { IfOk result (λ a. UnlessFault a.status (IfSome (outcome_of (told_in texts.now) (plan_for (asked question))) (IsReached a.status (Some []) (Some a.text.items)))) }

    // With status 0 the text names goals, which hold on every run of the program.
    ensures headline { IfOk result (λ a. a.status ≡ Status.Proved → Headline (told_in texts.now) (λ text. Some a.text.items ≡ behind (Some []) text) (Some (asked question))) }

    // Status 0 comes exactly where the texts are well formed, and all conditions are discharged or decided.
    ensures exact { IfOk result (λ a. UnlessFault a.status (Exactly (told_in texts.now) a.status (Some (asked question)))) }

    // With status 6 a text isn't there.
    ensures reads { IfOk result (λ a. a.status ≡ Status.ReadFault → LacksText texts.now question) }
{
    named_forms_are_taken();
    let words = words_for(alloc, question, crew(workers))?;
    let mut files = HeldTexts {
        texts: *texts,
        misses: 0,
    };
    answered(rt, alloc, words.as_slice(), &mut files, gate)
}

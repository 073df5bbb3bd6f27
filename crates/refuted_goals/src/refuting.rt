//! Three texts, a program, a proof and a schedule: whether the schedule gives a run on which the last goal fails.

ghost use Rattle.std.specs.Prelude.{◌≡◌, ◌↔◌, ◌≤◌, true, List, length, map, IfOk, Ok};
ghost use Rattle.st_program.specs.Plain.{plain_children};
ghost use Rattle.transition_system.specs.Plain.{plain_system};
ghost use Rattle.temporal_goals.specs.Plain.{plain_step};
ghost use Rattle.temporal_goals.specs.Texts.{PlainStep};
ghost use Rattle.proof_script.specs.Script.{script_spelled};
ghost use Rattle.schedule_reader.specs.Schedules.{PlainSchedule, schedule_spelled};
ghost use Rattle.posed_conditions.specs.Translated.{IsTranslated, typed_of};
ghost use Rattle.refuted_goals.specs.Refuted.{FailsBy, Refutes, IsRefuted};

use crate::denying::{no_program, no_schedule, no_script};
use crate::laws::what_fails_is_refuted;
use crate::playing::fails_by;
use posed_conditions::{TranslatedProgram, translate_text};
use proof_script::read_script;
use schedule_reader::laws::schedules_obey;
use schedule_reader::read_schedule;
use st_memory::Memory;
use std::alloc::Global;
use temporal_goals::Step;

/// The longest text that is read, in bytes.
const LONGEST: usize = 4_194_304;

/// Whether the text of a schedule spells one by which the last goal fails.
fn by_schedule(
    alloc: Global,
    source: &TranslatedProgram,
    steps: &[Step],
    text: &[u8],
) -> Result<bool, Memory>
    requires translated { IsTranslated source.now }
    requires short { length text.now ≤ 4194304 }
    ensures { IfOk result (λ b. (b ≡ true) ↔ ((s : PlainSchedule)
        × (schedule_spelled source.now.names (plain_children source.now.program.processes) text.now ≡ Ok s)
        × FailsBy (typed_of source.now) (map plain_step steps.now) s)) }
{
    schedules_obey();
    match read_schedule(alloc, text, &source.program, &source.names) {
        Ok(schedule) => fails_by(alloc, source, steps, &schedule),
        Err(fault) => no_schedule(fault),
    }
}

/// Whether the text of a proof spells a script, and that of a schedule one by which the script's last goal fails.
fn by_proof(
    alloc: Global,
    source: &TranslatedProgram,
    proof: &[u8],
    schedule: &[u8],
) -> Result<bool, Memory>
    requires translated { IsTranslated source.now }
    requires proof { length proof.now ≤ 4194304 }
    requires schedule { length schedule.now ≤ 4194304 }
    ensures { IfOk result (λ b. (b ≡ true) ↔ ((steps : List PlainStep)
        × (script_spelled source.now.names (plain_system source.now.system) proof.now ≡ Ok steps)
        × ((s : PlainSchedule)
        × (schedule_spelled source.now.names (plain_children source.now.program.processes) schedule.now ≡ Ok s)
        × FailsBy (typed_of source.now) steps s))) }
{
    match read_script(alloc, proof, &source.names, &source.system) {
        Ok(script) => by_schedule(alloc, source, &script.steps, schedule),
        Err(fault) => no_script(fault),
    }
}

/// Whether the schedule gives a run of the program on which the last goal of the proof fails. Then this goal doesn't hold on
/// every run of the program, and no proof shows it.
///
/// It doesn't where a text is refused, or that of the proof or of the schedule has more than 4,194,304 bytes, where the schedule
/// gives no run, where there is no goal, or where a number is too large to judge it.
pub fn refutes(alloc: Global, program: &[u8], proof: &[u8], schedule: &[u8]) -> Result<bool, Memory>
    ensures exact { IfOk result (λ b. (b ≡ true) ↔ Refutes program.now proof.now schedule.now) }
    ensures refuted { IfOk result (λ b. b ≡ true → IsRefuted program.now proof.now) }
{
    what_fails_is_refuted();
    if LONGEST < proof.len() {
        return Ok(false);
    }
    if LONGEST < schedule.len() {
        return Ok(false);
    }
    match translate_text(alloc, program) {
        Ok(source) => by_proof(alloc, &source, proof, schedule),
        Err(fault) => no_program(fault),
    }
}

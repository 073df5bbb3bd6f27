//! A script of a text over a program, and its conditions.

ghost use Rattle.std.specs.Prelude.{◌≡◌, ℕ, List, IfOk, IfErr, Ok};
ghost use Rattle.transition_system.specs.Plain.{plain_system};
ghost use Rattle.temporal_goals.specs.Plain.{plain_script};
ghost use Rattle.proof_script.specs.Script.{script_spelled};
ghost use Rattle.posed_conditions.specs.Translated.{IsTranslated};
ghost use Rattle.posed_conditions.specs.Posed.{IsPosedBy};
ghost use Rattle.posed_conditions.specs.Refused.{PassesLimit, RefusesProof};

use crate::faults::{PosingFault, of_obligation, of_script};
use crate::translated::TranslatedProgram;
use obligations::conditions_of;
use proof_script::laws::{scripts_are_over, scripts_are_proofs};
use proof_script::read_script;
use script_bounds::laws::over_is_written;
use st_form::Condition;
use std::alloc::Global;
use temporal_goals::Script;

/// A script and its conditions, in their order.
#[derive(Drop)]
pub struct PosedScript {
    pub script: Script,
    pub conditions: Vec<Condition>,
}

/// The conditions of a script that was read.
fn obliged(
    alloc: Global,
    source: &TranslatedProgram,
    script: Script,
) -> Result<PosedScript, PosingFault>
    requires translated { IsTranslated source.now }
    requires spelled { (text : List ℕ) × (script_spelled source.now.names (plain_system source.now.system) text ≡ Ok (plain_script script)) }
    ensures made { IfOk result (λ p. (text : List ℕ)
        → script_spelled source.now.names (plain_system source.now.system) text ≡ Ok (plain_script script) → IsPosedBy text source.now p) }
    ensures refused { IfErr result (PassesLimit source.now (plain_script script)) }
{
    scripts_are_proofs();
    scripts_are_over();
    over_is_written();
    match conditions_of(alloc, &source.program, &source.system, &script) {
        Ok(conditions) => Ok(PosedScript { script, conditions }),
        Err(fault) => Err(of_obligation(fault)),
    }
}

/// The script that a text spells over a program, and its conditions: they can be decided, and where all are valid each goal
/// holds on every run of the program.
///
/// # Errors
///
/// `LongProof` for a text of more than 4,194,304 bytes; the text's first fault with its place; the limit that the conditions
/// pass, with the step; or want of memory.
pub fn pose_script(
    alloc: Global,
    source: &TranslatedProgram,
    text: &[u8],
) -> Result<PosedScript, PosingFault>
    requires translated { IsTranslated source.now }
    ensures made { IfOk result (IsPosedBy text.now source.now) }
    ensures refused { IfErr result (RefusesProof source.now text.now) }
{
    if 4194304 < text.len() {
        return Err(PosingFault::LongProof);
    }
    match read_script(alloc, text, &source.names, &source.system) {
        Ok(script) => obliged(alloc, source, script),
        Err(fault) => Err(of_script(fault)),
    }
}

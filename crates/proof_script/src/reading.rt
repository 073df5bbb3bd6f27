//! Whole scripts.
//!
//! A script is read once, from left to right. The names of the steps before one stand in a map, so that a name costs no walk
//! over them, and at most 64 formulas, levels or nodes are listed together: the time is linear in the text.

ghost use Rattle.std.specs.Prelude.{◌≡◌, ◌<◌, ◌^◌, ◌++◌, ◌∷◌, [], false, IfOk, length, map};
ghost use Rattle.st_tokens.specs.Stream.{stream};
ghost use Rattle.st_reading.specs.Breaches.{Gives};
ghost use Rattle.st_reading.specs.Reading.{Reads, size};
ghost use Rattle.st_program.specs.Names.{as_bytes};
ghost use Rattle.transition_system.specs.Plain.{plain_system};
ghost use Rattle.temporal_goals.specs.Plain.{plain_goal, plain_step, plain_script};
ghost use Rattle.proof_script.specs.Faults.{see};
ghost use Rattle.proof_script.specs.Listing.{setting_view};
ghost use Rattle.proof_script.specs.Steps.{is_invariance, is_taken, earlier_of};
ghost use Rattle.proof_script.specs.Script.{steps_of, script_spelled};

use crate::fault::ScriptFault;
use crate::setting::Setting;
use crate::steps::{claim_in, step};
use indexmap::IndexMap;
use st_memory::Memory;
use st_program::NameTable;
use st_reading::{advance, ahead, at_end};
use st_tokens::Tokens;
use std::alloc::Global;
use temporal_goals::{Goal, Script, Step};
use transition_system::Fts;

fn is_invariance(goal: &Goal) -> bool
    ensures { result ≡ is_invariance (plain_goal goal.now) }
{
    matches!(goal, Goal::Invariant(_))
}

/// Adds the name of a step to those of the earlier ones, none of which has it.
fn note(earlier: &mut IndexMap<String, bool>, step: &Step) -> Result<(), Memory>
    requires { is_taken (as_bytes earlier.old.entries) (plain_step step.now).name ≡ false }
    ensures { IfOk result (λ _. as_bytes earlier.new.entries ≡ as_bytes earlier.old.entries ++ earlier_of (plain_step step.now ∷ [])) }
{
    earlier.insert(step.name.clone()?, is_invariance(&step.goal))?;
    Ok(())
}

/// All steps up to the text's end.
#[tactic(auto, unfolding(crate::specs::Script::steps_of))]
fn steps(
    alloc: Global,
    setting: &Setting<'_>,
    tokens: &mut Tokens<'_>,
) -> Result<Vec<Step>, ScriptFault>
    requires { size (stream tokens.old) < 2 ^ 32 }
    ensures { Reads see (λ v. map plain_step v.items) result (stream tokens.new) (steps_of (setting_view setting.now) [] (stream tokens.old)) }
{
    let mut steps = Vec::new(alloc);
    let mut earlier = IndexMap::new(alloc);
    'chain: while let Some(claim) = claim_in(ahead(tokens)) {
        advance(tokens);
        let next = step(alloc, setting, claim, &earlier, tokens)?;
        note(&mut earlier, &next)?;
        steps.push(next)?;
    }
    at_end(tokens)?;
    Ok(steps)
}

/// Reads the script that a text spells, over the names of a program and its transitions.
#[tactic(auto, unfolding(crate::specs::Script::script_spelled))]
pub fn read_script(
    alloc: Global,
    text: &[u8],
    names: &NameTable,
    fts: &Fts,
) -> Result<Script, ScriptFault>
    requires { length text.now < 2 ^ 32 }
    ensures { Gives see plain_script result (script_spelled names.now (plain_system fts.now) text.now) }
{
    let setting = Setting { names, fts };
    let mut tokens = Tokens::new(text);
    let steps = steps(alloc, &setting, &mut tokens)?;
    Ok(Script { steps })
}

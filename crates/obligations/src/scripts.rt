//! The conditions of a whole script, made at once or behind those of its first steps.

ghost use Rattle.std.specs.Prelude.{◌≡◌, ◌≤◌, [], map, length, take, All, None, IfOk, IfErr, OnOk};
ghost use Rattle.st_form.specs.Plain.{plain};
ghost use Rattle.st_program.specs.Plain.{plain_children};
ghost use Rattle.control_facts.specs.Alternatives.{control_of};
ghost use Rattle.search_laws.specs.Searchable.{AreSearchable};
ghost use Rattle.transition_system.specs.Plain.{plain_system};
ghost use Rattle.spl_translation.specs.Translation.{translation};
ghost use Rattle.temporal_goals.specs.Plain.{plain_step, plain_script};
ghost use Rattle.vc_generator.specs.Plain.{plain_list};
ghost use Rattle.vc_generator.specs.Refusing.{Begins};
ghost use Rattle.obligation_laws.specs.Obligations.{HoldsOnRuns};
ghost use Rattle.list_laws.specs.Each.{Each};
ghost use Rattle.script_laws.specs.Script.{script_list};
ghost use Rattle.script_laws.specs.Refused.{refused_at};
ghost use Rattle.rule_fits.specs.Obeying.{IsProof, RuleFits};
ghost use Rattle.script_laws.specs.Written.{StepWritten};
ghost use Rattle.script_obligations.specs.Laws.{AreThese};
ghost use Rattle.obligations.specs.Made.{IsRefusal, AllValid, AreAppended};

use crate::faults::{ObligationFault, fault_at};
use crate::steps::append_step;
use script_obligations::laws::{scripts_are_searchable, scripts_hold};
use st_form::Condition;
use st_program::Program;
use std::alloc::Global;
use temporal_goals::{Script, Step};
use transition_system::Fts;
use vc_generator::Conditions;

/// Appends the conditions of the steps from a number on to those of the steps before it, in their order, up to the first refusal.
/// Each step before has given a condition, so the number of a step is at most 20,000.
fn append_steps(
    alloc: Global,
    fts: &Fts,
    steps: &[Step],
    first: usize,
    list: &mut Conditions,
) -> Result<(), ObligationFault>
    requires fits { Each (λ s. RuleFits (plain_system fts.now) s.goal s.rule) (map plain_step steps.now) }
    requires written { Each (StepWritten (plain_system fts.now)) (map plain_step steps.now) }
    requires known { first ≤ length steps.now }
    requires before { AreAppended (plain_system fts.now) (take first (map plain_step steps.now)) (plain_list list.old) }
    ensures made { OnOk result (AreAppended (plain_system fts.now) (map plain_step steps.now) (plain_list list.new)) }
    ensures refused { IfErr result (λ fault. IsRefusal fault (refused_at [] (script_list (plain_system fts.now) (map plain_step steps.now)))) }
    ensures begins { Begins (plain_list list.old) (plain_list list.new) }
    ensures few { length (plain_list list.new) ≤ 20000 }
{
    for index in first..steps.len() {
        let number = index as u32;
        let earlier = &steps[..index];
        match append_step(alloc, fts, number, earlier, &steps[index], list) {
            Ok(()) => {}
            Err(fault) => return Err(fault_at(number, fault)),
        }
    }
    Ok(())
}

/// The list of the conditions of all steps, in their order, or the first refusal.
fn listed(alloc: Global, fts: &Fts, steps: &[Step]) -> Result<Conditions, ObligationFault>
    requires fits { Each (λ s. RuleFits (plain_system fts.now) s.goal s.rule) (map plain_step steps.now) }
    requires written { Each (StepWritten (plain_system fts.now)) (map plain_step steps.now) }
    ensures made { IfOk result (λ list. (refused_at [] (script_list (plain_system fts.now) (map plain_step steps.now)) ≡ None)
        × (plain_list list ≡ map (λ d. d.condition) (script_list (plain_system fts.now) (map plain_step steps.now)))) }
    ensures refused { IfErr result (λ fault. IsRefusal fault (refused_at [] (script_list (plain_system fts.now) (map plain_step steps.now)))) }
    ensures few { IfOk result (λ list. length (plain_list list) ≤ 20000) }
{
    let mut list = Conditions::new(alloc);
    match append_steps(alloc, fts, steps, 0, &mut list) {
        Ok(()) => Ok(list),
        Err(fault) => Err(fault),
    }
}

/// The conditions of a script over a program and its translation, step by step. They can be decided, and where all are valid
/// the goal of each step holds on every run of the program.
///
/// Each step cites only invariances that stand before it, its rule fits its goal and the system, and it speaks of the system's
/// variables and locations with numbers as small as texts write them. A script that is read is so.
///
/// # Errors
///
/// The limit that the first refused condition passes, with the number of its step, from 0: 20,000 conditions stand before it
/// (`TooMany`), it has more than 2,048 atoms (`TooWide`), or with it all would weigh more than 2^24 (`TooHeavy`). Or want of
/// memory.
pub fn conditions_of(
    alloc: Global,
    program: &Program,
    fts: &Fts,
    script: &Script,
) -> Result<Vec<Condition>, ObligationFault>
    requires system { plain_system fts.now
        ≡ translation program.now.variables (plain program.now.initial) (plain_children program.now.processes) program.now.locations }
    requires proof { IsProof (plain_system fts.now) (plain_script script.now) }
    requires written { Each (StepWritten (plain_system fts.now)) (plain_script script.now) }
    ensures made { IfOk result (λ cs. (refused_at [] (script_list (plain_system fts.now) (plain_script script.now)) ≡ None)
        × AreThese cs.items (script_list (plain_system fts.now) (plain_script script.now))) }
    ensures refused { IfErr result (λ fault. IsRefusal fault (refused_at [] (script_list (plain_system fts.now) (plain_script script.now)))) }
    ensures few { IfOk result (λ cs. length cs.items ≤ 20000) }
    ensures sound { IfOk result (λ cs. AllValid (control_of (plain_children program.now.processes)) cs.items
        → All (λ s. HoldsOnRuns (plain_children program.now.processes) (plain program.now.initial) s.goal) (plain_script script.now)) }
    ensures searchable { IfOk result (λ cs. AreSearchable (length program.now.variables) cs.items) }
{
    scripts_hold(program);
    scripts_are_searchable(program);
    let list = listed(alloc, fts, &script.steps)?;
    Ok(list.items)
}

/// Appends the conditions of a script behind its first `known` steps to a list that has those of these steps, for who makes the
/// conditions of a script that grows. They can be decided.
///
/// What is asked of the script is what `conditions_of` asks.
///
/// # Errors
///
/// Those of `conditions_of`, of the whole script. Then the list begins as it was: `vc_generator::take_back` takes it back.
pub fn append_conditions(
    alloc: Global,
    program: &Program,
    fts: &Fts,
    script: &Script,
    known: usize,
    list: &mut Conditions,
) -> Result<(), ObligationFault>
    requires system { plain_system fts.now
        ≡ translation program.now.variables (plain program.now.initial) (plain_children program.now.processes) program.now.locations }
    requires proof { IsProof (plain_system fts.now) (plain_script script.now) }
    requires written { Each (StepWritten (plain_system fts.now)) (plain_script script.now) }
    requires known { known ≤ length (plain_script script.now) }
    requires before { AreAppended (plain_system fts.now) (take known (plain_script script.now)) (plain_list list.old) }
    ensures made { OnOk result (AreAppended (plain_system fts.now) (plain_script script.now) (plain_list list.new)) }
    ensures refused { IfErr result (λ fault. IsRefusal fault (refused_at [] (script_list (plain_system fts.now) (plain_script script.now)))) }
    ensures begins { Begins (plain_list list.old) (plain_list list.new) }
    ensures searchable { OnOk result (AreSearchable (length program.now.variables) list.new.items) }
{
    scripts_are_searchable(program);
    append_steps(alloc, fts, &script.steps, known, list)
}

//! The steps of a script, each with how many conditions it has, and all of them together.

ghost use Rattle.std.specs.Prelude.{◌≡◌, IfOk, length, map};
ghost use Rattle.std.specs.List.{sum as sum_of};
ghost use Rattle.transition_system.specs.Plain.{plain_system, plain_transition};
ghost use Rattle.temporal_goals.specs.Plain.{plain_step};
ghost use Rattle.script_laws.specs.Script.{script_list};
ghost use Rattle.condition_counts.specs.Counts.{counts_of};
ghost use Rattle.condition_counts.specs.Sums.{modes_among, step_sum};

use crate::rules::{added, rule_count};
use st_memory::Memory;
use std::alloc::Global;
use temporal_goals::Step;
use transition_system::{Fts, Transition};

/// How many conditions each step of a script has, in order, and how many they are together.
#[derive(Drop)]
pub struct Counts {
    pub steps: Vec<u64>,
    pub all: u64,
}

/// How many modes a transition has.
fn modes_of(transition: &Transition) -> u64
    ensures { result ≡ length (plain_transition transition.now).modes }
{
    transition.modes.len() as u64
}

/// How many modes transitions have together.
fn modes_in(transitions: &[Transition]) -> Result<u64, Memory>
    ensures { IfOk result (λ n. n ≡ modes_among (map plain_transition transitions.now)) }
{
    let mut count = 0u64;
    for transition in transitions {
        count = added(count, modes_of(transition))?;
    }
    Ok(count)
}

/// How many conditions each step has, over a system with so many modes.
fn counted(alloc: Global, steps: &[Step], modes: u64) -> Result<Vec<u64>, Memory>
    ensures { IfOk result (λ v. v.items ≡ map (step_sum modes) (map plain_step steps.now)) }
{
    let mut out = Vec::with_capacity(alloc, steps.len())?;
    for step in steps {
        out.push(rule_count(&step.goal, &step.rule, modes)?)?;
    }
    Ok(out)
}

/// The sum of numbers.
fn total(counts: &[u64]) -> Result<u64, Memory>
    ensures { IfOk result (λ n. n ≡ sum_of counts.now) }
{
    let mut all = 0u64;
    for count in counts {
        all = added(all, *count)?;
    }
    Ok(all)
}

/// How many conditions a script's steps have over a system, none of them made.
///
/// Want of memory is the one refusal, also where a number is 2^64 or more.
pub fn condition_counts(alloc: Global, system: &Fts, steps: &[Step]) -> Result<Counts, Memory>
    // Each step has as many as the list of its rule's conditions is long.
    ensures steps { IfOk result (λ c. c.steps.items ≡ counts_of (plain_system system.now) (map plain_step steps.now)) }

    // And all together as many as the list of the script's.
    ensures all { IfOk result (λ c. c.all ≡ length (script_list (plain_system system.now) (map plain_step steps.now))) }
{
    let modes = modes_in(&system.transitions)?;
    let steps = counted(alloc, steps, modes)?;
    let all = total(&steps)?;
    Ok(Counts { steps, all })
}

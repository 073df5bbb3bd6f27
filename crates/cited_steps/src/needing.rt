//! A step cites only steps in front of it, so one walk from the last step to the first is enough: when a step is looked at, all that cite
//! it have been.

ghost use Rattle.std.specs.Prelude.{◌≡◌, ◌<◌, ◌+◌, ◌++◌, ℕ, List, [], IfOk, OnOk, length, map, suc};
ghost use Rattle.std.specs.Bool.{Decides};
ghost use Rattle.std.specs.List.{Contains};
ghost use Rattle.temporal_goals.specs.Plain.{plain_step};
ghost use Rattle.rule_fits.specs.Obeying.{CiteLemmas};
ghost use Rattle.cited_steps.specs.Needed.{AreNeeded, AreUnneeded};
ghost use Rattle.cited_steps.specs.Looking.{AreGathered, AreLeft};

use st_memory::Memory;
use std::alloc::Global;
use temporal_goals::Step;

/// Whether a number is among others.
fn is_among(numbers: &[usize], number: usize) -> bool
    ensures { Decides result (Contains numbers.now number) }
{
    numbers.contains(&number)
}

/// Adds what a step cites.
fn push_cited(needed: &mut Vec<usize>, cited: &[u32]) -> Result<(), Memory>
    ensures { OnOk result (needed.new.items ≡ needed.old.items ++ cited.now) }
{
    for number in cited {
        needed.push(*number as usize)?;
    }
    Ok(())
}

/// Looks at a step, behind which all have been looked at: what it cites is needed if it is.
fn look_at(needed: &mut Vec<usize>, steps: &[Step], number: usize) -> Result<(), Memory>
    requires number { number < length steps.now }
    requires cites { CiteLemmas [] (map plain_step steps.now) }
    ensures { OnOk result ((goals : List ℕ)
        → AreGathered (map plain_step steps.now) goals (suc number) needed.old.items
        → AreGathered (map plain_step steps.now) goals number needed.new.items) }
{
    if is_among(needed, number) {
        push_cited(needed, &steps[number].cited)?;
    }
    Ok(())
}

/// The numbers of the steps that some goal needs, in no order and perhaps more than once: the goals, and what needed steps cite. Steps are
/// numbered from 0.
fn needed_steps(alloc: Global, steps: &[Step], goals: &[usize]) -> Result<Vec<usize>, Memory>
    requires { CiteLemmas [] (map plain_step steps.now) }
    ensures { IfOk result (λ v. AreNeeded (map plain_step steps.now) goals.now v.items) }
{
    let mut needed = Vec::from_slice(alloc, goals)?;
    for behind in 0..steps.len() {
        look_at(&mut needed, steps, steps.len() - 1 - behind)?;
    }
    Ok(needed)
}

/// Keeps the number of a step that isn't needed.
fn keep_unneeded(left: &mut Vec<usize>, needed: &[usize], number: usize) -> Result<(), Memory>
    ensures { OnOk result (AreLeft needed.now number left.old.items → AreLeft needed.now (suc number) left.new.items) }
{
    if !is_among(needed, number) {
        left.push(number)?;
    }
    Ok(())
}

/// The numbers of the steps that no goal needs, in their order: those that are no goals, and that no needed step cites. Steps are numbered
/// from 0.
pub fn unneeded_steps(alloc: Global, steps: &[Step], goals: &[usize]) -> Result<Vec<usize>, Memory>
    requires { CiteLemmas [] (map plain_step steps.now) }
    ensures { IfOk result (λ v. AreUnneeded (map plain_step steps.now) goals.now v.items) }
{
    let needed = needed_steps(alloc, steps, goals)?;
    let mut left = Vec::new(alloc);
    for number in 0..steps.len() {
        keep_unneeded(&mut left, &needed, number)?;
    }
    Ok(left)
}

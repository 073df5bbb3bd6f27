//! How many consecutive rounds begin at each position of a run.

ghost use Rattle.std.specs.Prelude.{◌≡◌, ℕ, suc, ◌≤◌, ◌<◌, ◌+◌, ◌^◌, length, slice_get, slice_index, replicate, IfOk, OnOk, Some};
ghost use Rattle.observations.specs.Observation.{Observation};
ghost use Rattle.run_judging.specs.declared.ahead.Ahead.{Ahead};
ghost use Rattle.st_form.specs.Formula.{Situation};
ghost use Rattle.run_judging.specs.Shown.{Shows};
ghost use Rattle.run_judging.specs.Greatest.{AreGreatest, AreGreatestOpen};
ghost use Rattle.run_judging.specs.Paying.{IsMost, nothing};

use crate::ahead::{Ahead, is_on, look_back};
use crate::course::Course;
use crate::demands::demands_from;
use st_memory::Memory;
use std::alloc::Global;

/// One more than the greatest count at a position below the end which meets the demands.
fn most_from(demands: &[usize], counts: &[u32], end: usize) -> u32
    requires demands { end ≤ length demands.now }
    requires counts { end ≤ length counts.now }
    requires small { (l : ℕ) → l < end → slice_index counts.now l + 1 < 2 ^ 32 }
    ensures { IsMost demands.now counts.now end result }
{
    let mut owed = 0;
    let mut most = 0;
    for position in 0..end {
        owed = owed.max(demands[position]);
        if owed <= position {
            most = most.max(counts[position] + 1);
        }
    }
    most
}

/// Nothing is ahead of any name: so it is behind the last position.
fn nothing_ahead(alloc: Global, names: usize, never: usize) -> Result<Vec<Ahead>, Memory>
    ensures { IfOk result (λ aheads. aheads.items ≡ replicate names (nothing never)) }
{
    let nothing = Ahead {
        served: never,
        off: never,
        on: never,
    };
    Ok(vec![in alloc; nothing; names]?)
}

/// Counts from the last position back.
///
/// The next positions where a name is served, disabled and enabled say which ends a round may have, and the rounds behind
/// each such end have been counted.
fn count_back(
    alloc: Global,
    course: &Course,
    barred: &[bool],
    aheads: &mut [Ahead],
    counts: &mut [u32],
) -> Result<(), Memory>
    requires fits { length course.now.enabled.items < 2 ^ 32 }
    requires aheads { aheads.old ≡ replicate (length course.now.fairness.items) (nothing (length course.now.enabled.items)) }
    requires counts { counts.old ≡ replicate (length course.now.enabled.items) 0 }
    ensures { OnOk result ((o : Observation Situation) → Shows course.now o → AreGreatestOpen o barred.now counts.new) }
{
    let never = course.positions();
    let mut end = never;
    let mut position = never;
    while position > 0 {
        position -= 1;
        look_back(
            aheads,
            position,
            course.enabled_at(position),
            course.taken_at(position),
        );
        if is_on(barred, position) {
            end = position;
        } else {
            let demands = demands_from(alloc, &course.fairness, aheads, position, never)?;
            counts[position] = most_from(&demands, counts, end);
        }
    }
    Ok(())
}

/// For each position the greatest number of consecutive rounds that begin there and end before the next barred position.
/// At a barred position the number is 0.
pub(crate) fn rounds_before(
    alloc: Global,
    course: &Course,
    barred: &[bool],
) -> Result<Vec<u32>, Memory>
    requires { length course.now.enabled.items < 2 ^ 32 }
    ensures long { IfOk result (λ counts. length counts.items ≡ length course.now.enabled.items) }
    ensures greatest { IfOk result (λ counts. (o : Observation Situation) → Shows course.now o → AreGreatestOpen o barred.now counts.items) }
{
    let never = course.positions();
    let mut counts = vec![in alloc; 0u32; never]?;
    let mut aheads = nothing_ahead(alloc, course.fairness.len(), never)?;
    count_back(alloc, course, barred, &mut aheads, &mut counts)?;
    Ok(counts)
}

/// For each position the greatest number of consecutive rounds that begin there and end within the run.
pub fn rounds(alloc: Global, course: &Course) -> Result<Vec<u32>, Memory>
    requires { length course.now.enabled.items < 2 ^ 32 }
    ensures { IfOk result (λ counts. (o : Observation Situation) → Shows course.now o → AreGreatest o counts.items) }
{
    rounds_before(alloc, course, &[])
}

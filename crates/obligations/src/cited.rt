//! The formulas that a step cites.

ghost use Rattle.std.specs.Prelude.{◌≡◌, ◌++◌, map, slice_get, IfOk, OnOk};
ghost use Rattle.st_form.specs.Plain.{plain};
ghost use Rattle.temporal_goals.specs.Plain.{plain_goal, plain_step};
ghost use Rattle.script_laws.specs.Script.{lemma_in, lemma_of, cited_of};

use st_form::Form;
use st_memory::Memory;
use std::alloc::Global;
use temporal_goals::{Goal, Step};

/// Appends what may be cited of a goal: the formula of an invariance.
fn push_lemma_in(alloc: Global, goal: &Goal, out: &mut Vec<Form>) -> Result<(), Memory>
    ensures { OnOk result (map plain out.new.items ≡ map plain out.old.items ++ lemma_in (plain_goal goal.now)) }
{
    match goal {
        Goal::Invariant(form) => {
            out.push(form.copy(alloc)?)?;
            Ok(())
        }
        Goal::Waiting(..) | Goal::Response(..) => Ok(()),
    }
}

/// Appends what may be cited of the earlier step with this number, if there is one.
#[tactic(auto, using(crate::proofs::Citing::no_lemma, crate::proofs::Citing::own_lemma))]
fn push_lemma(
    alloc: Global,
    earlier: &[Step],
    number: u32,
    out: &mut Vec<Form>,
) -> Result<(), Memory>
    ensures { OnOk result (map plain out.new.items ≡ map plain out.old.items ++ lemma_of (slice_get (map plain_step earlier.now) number)) }
{
    match earlier.get(number as usize) {
        Some(step) => push_lemma_in(alloc, &step.goal, out),
        None => Ok(()),
    }
}

/// The formulas of the cited steps, in the order in which they are cited.
pub(crate) fn cited_forms(
    alloc: Global,
    earlier: &[Step],
    cited: &[u32],
) -> Result<Vec<Form>, Memory>
    ensures { IfOk result (λ v. map plain v.items ≡ cited_of (map plain_step earlier.now) cited.now) }
{
    let mut forms = Vec::with_capacity(alloc, cited.len())?;
    for number in cited {
        push_lemma(alloc, earlier, *number, &mut forms)?;
    }
    Ok(forms)
}

//! What is given in a condition.

ghost use Rattle.std.specs.Prelude.{◌≡◌, ◌++◌, ◌∷◌, map, IfOk, OnOk};
ghost use Rattle.st_form.specs.Plain.{plain};
ghost use Rattle.transition_system.specs.Meaning.{enabling_of};
ghost use Rattle.transition_system.specs.Plain.{plain_mode};
ghost use Rattle.vc_generator.specs.Building.{conjuncts};

use crate::pools::{Pool, share_all, shared, taken};
use st_form::{Form, SharedForm};
use st_memory::Memory;
use std::alloc::Global;
use transition_system::Mode;

/// Appends the parts of a conjunction; of another formula itself.
#[tactic(auto, using(st_form::proofs::Nodes::nodes, crate::proofs::Listed::listed_plain))]
pub fn push_conjuncts(
    alloc: Global,
    pool: &mut Pool,
    form: &Form,
    out: &mut Vec<SharedForm>,
) -> Result<(), Memory>
    ensures { OnOk result (map plain out.new.items ≡ map plain out.old.items ++ conjuncts (plain form.now)) }
{
    match form {
        Form::And(parts) => share_all(alloc, pool, parts, out),
        _ => {
            out.push(shared(alloc, pool, form)?)?;
            Ok(())
        }
    }
}

/// What is given before a mode: the lemmas, the formula, control at the mode's locations, and its guard.
pub fn given_before(
    alloc: Global,
    pool: &mut Pool,
    mode: &Mode,
    lemmas: &[Form],
    before: &Form,
) -> Result<Vec<SharedForm>, Memory>
    ensures { IfOk result (λ v. map plain v.items ≡ map plain lemmas.now ++ plain before.now ∷ enabling_of (plain_mode mode.now)) }
{
    let parts = lemmas.len().saturating_add(mode.at.len());
    let mut given = Vec::with_capacity(alloc, parts.saturating_add(2))?;
    share_all(alloc, pool, lemmas, &mut given)?;
    given.push(shared(alloc, pool, before)?)?;
    for location in &mode.at {
        given.push(taken(alloc, pool, Form::At(*location))?)?;
    }
    given.push(shared(alloc, pool, &mode.guard)?)?;
    Ok(given)
}

//! The steps of a state by name.

ghost use Rattle.std.specs.Prelude.{◌≡◌, ◌∷◌, List, All, IfOk, IfSome, map};
ghost use Rattle.std.specs.Option.{option_map};
ghost use Rattle.st_form.specs.declared.conditions.TransName.TheVariants.{Idle};
ghost use Rattle.st_form.specs.declared.variables.Variable.{Variable};
ghost use Rattle.spl_semantics.specs.Data.{StoreFits};
ghost use Rattle.spl_semantics.specs.Names.{same_part, same_name};
ghost use Rattle.spl_semantics.specs.Plain.{plain_state, plain_moves};
ghost use Rattle.trace_player.specs.Playing.{step_named, behind_in};

use spl_semantics::Move;
use st_form::{Part, TransName};
use st_memory::Memory;
use st_program::State;
use std::alloc::Global;

/// Whether the two parts are one.
fn same_part(part: Part, wanted: Part) -> bool
    ensures { result ≡ same_part part wanted }
{
    match part {
        Part::Whole => matches!(wanted, Part::Whole),
        Part::Entry => matches!(wanted, Part::Entry),
        Part::Exit => matches!(wanted, Part::Exit),
    }
}

/// Whether the two names are one.
pub fn same_name(name: TransName, wanted: TransName) -> bool
    ensures { result ≡ same_name name wanted }
{
    match name {
        TransName::Idle => matches!(wanted, TransName::Idle),
        TransName::Step { occ, part } => match wanted {
            TransName::Idle => false,
            TransName::Step {
                occ: other,
                part: another,
            } => occ == other && same_part(part, another),
        },
    }
}

/// The names that are enabled, from all steps: idling, and the names of the steps.
pub fn names_of(alloc: Global, steps: &[Move]) -> Result<Vec<TransName>, Memory>
    ensures { IfOk result (λ v. v.items ≡ Idle ∷ map (λ m. m.name) steps.now) }
{
    let mut names = Vec::new(alloc);
    names.push(TransName::Idle)?;
    for step in steps {
        names.push(step.name)?;
    }
    Ok(names)
}

/// The state behind the first step with the name.
fn first_named(alloc: Global, steps: &[Move], name: TransName) -> Result<Option<State>, Memory>
    ensures state { IfOk result (λ o. option_map plain_state o ≡ step_named (plain_moves steps.now) name) }
    ensures fits { (vs : List Variable) → All (λ m. StoreFits vs m.state.store.items) steps.now → IfOk result (λ o. IfSome o (λ s. StoreFits vs s.store.items)) }
{
    for step in steps {
        if same_name(step.name, name) {
            return Ok(Some(step.state.copy(alloc)?));
        }
    }
    Ok(None)
}

/// The state to which a move leads, if it is enabled.
pub fn behind(
    alloc: Global,
    state: &State,
    steps: &[Move],
    name: TransName,
) -> Result<Option<State>, Memory>
    ensures state { IfOk result (λ o. option_map plain_state o ≡ behind_in (plain_moves steps.now) (plain_state state.now) name) }
    ensures fits { (vs : List Variable) → StoreFits vs state.now.store.items → All (λ m. StoreFits vs m.state.store.items) steps.now
        → IfOk result (λ o. IfSome o (λ s. StoreFits vs s.store.items)) }
{
    match name {
        TransName::Idle => Ok(Some(state.copy(alloc)?)),
        TransName::Step { .. } => first_named(alloc, steps, name),
    }
}

//! Modes, and the transitions that are made of them.

ghost use Rattle.std.specs.Prelude.{◌≡◌, ◌++◌, ◌∷◌, [], map, OnOk, IfOk};
ghost use Rattle.st_form.specs.Plain.{plain};
ghost use Rattle.st_form.specs.Formula.{negation};
ghost use Rattle.st_program.specs.Plain.{plain_children};
ghost use Rattle.st_program.specs.Spots.{entry};
ghost use Rattle.spl_semantics.specs.Control.{starts, ends};
ghost use Rattle.transition_system.specs.Plain.{plain_mode, plain_transition};
ghost use Rattle.spl_translation.specs.Translation.{moving, passing, transition, whole, always};
ghost use Rattle.spl_translation.specs.Making.{plain_truths, plain_all};

use crate::right_sides::Values;
use st_form::{Change, Form, Part, TransName};
use st_memory::Memory;
use std::alloc::Global;
use transition_system::{Fairness, Mode, Transition};

/// A mode from locations to others, which gives these values.
pub fn moving(
    alloc: Global,
    from: Vec<u32>,
    guard: Form,
    values: Values,
    to: Vec<u32>,
) -> Result<Mode, Memory>
    ensures { IfOk result (λ m. plain_mode m
        ≡ moving from.items (plain guard) values.numbers.items (plain_truths values.truths.items) to.items) }
{
    let leaves = Vec::from_slice(alloc, &from)?;
    Ok(Mode {
        at: from,
        guard,
        change: Change {
            numbers: values.numbers,
            truths: values.truths,
            leaves,
            enters: to,
        },
    })
}

/// A mode that changes no variable.
pub fn passing(alloc: Global, from: Vec<u32>, guard: Form, to: Vec<u32>) -> Result<Mode, Memory>
    ensures { IfOk result (λ m. plain_mode m ≡ passing from.items (plain guard) to.items) }
{
    moving(alloc, from, guard, Values::none(alloc), to)
}

/// One more transition.
pub fn push(
    name: TransName,
    fairness: Fairness,
    modes: Vec<Mode>,
    out: &mut Vec<Transition>,
) -> Result<(), Memory>
    ensures { OnOk result (plain_all out.new.items
        ≡ plain_all out.old.items ++ transition name fairness (map plain_mode modes.items) ∷ []) }
{
    out.push(Transition {
        name,
        fairness,
        modes,
    })?;
    Ok(())
}

/// The transition of a statement that is taken as a whole.
pub fn push_whole(
    occ: u32,
    fairness: Fairness,
    modes: Vec<Mode>,
    out: &mut Vec<Transition>,
) -> Result<(), Memory>
    ensures { OnOk result (plain_all out.new.items ≡ plain_all out.old.items ++ whole occ fairness (map plain_mode modes.items)) }
{
    push(
        TransName::Step {
            occ,
            part: Part::Whole,
        },
        fairness,
        modes,
        out,
    )
}

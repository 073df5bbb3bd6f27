//! Transitions and their modes.

ghost use Rattle.std.specs.Prelude.{◌≡◌, ◌≢◌, ◌<◌, ◌^◌, ℕ, All, IfOk, IfSome, None, Some, length, map, slice_get};
ghost use Rattle.std.specs.Option.{option_map};
ghost use Rattle.st_form.specs.Exchange.{exchanged};
ghost use Rattle.st_form.specs.Formula.{Situation, formulas, every, truth};
ghost use Rattle.st_form.specs.Plain.{plain, plain_change};
ghost use Rattle.transition_system.specs.Bounds.{Suits};
ghost use Rattle.transition_system.specs.Meaning.{enabled_form, enabling_of, gone, is_enabled};
ghost use Rattle.transition_system.specs.Plain.{plain_mode, plain_transition};

use observations::Fairness;
use st_form::{Change, Form, LinFault, TransName};
use st_memory::Memory;
use std::alloc::Global;

/// A way to take a transition: where control is at each of the locations `at` and the guard holds, the change is made.
#[derive(Drop)]
pub struct Mode {
    pub at: Vec<u32>,
    pub guard: Form,
    pub change: Change,
}

/// A transition, with its modes in order.
#[derive(Drop)]
pub struct Transition {
    pub name: TransName,
    pub fairness: Fairness,
    pub modes: Vec<Mode>,
}

/// The formula that holds before the mode exactly where `form` holds behind it: variables replaced at once by what the mode
/// gives them, locations that the mode enters true and others that it leaves false.
///
/// The numbers of `form` are below 2^33 and those of the mode's change at most 2^30, over at most 64 variables; so no number
/// grows too large, and want of memory is the only other answer (the weakest precondition of an assignment: Hoare, An
/// axiomatic basis for computer programming, 1969; Manna and Pnueli, Temporal Verification of Reactive Systems: Safety, 1995,
/// section 1.3).
pub fn after(alloc: Global, form: &Form, mode: &Mode) -> Result<Form, Memory>
    requires { Suits (plain form.now) (plain_change mode.now.change) }
    ensures form { IfOk result (λ f. exchanged (plain_change mode.now.change) (plain form.now) ≡ Some (plain f)) }
    ensures truth { IfOk result (λ f. (s : Situation)
        → truth s (plain f) ≡ truth (gone (plain_mode mode.now) s) (plain form.now)) }
{
    match form.replace(alloc, &mode.change) {
        Ok(before) => Ok(before),
        Err(LinFault::Memory) => Err(Memory),
        Err(LinFault::TooLarge) => unreachable!(),
    }
}

/// The formula that holds where the transition is enabled: the disjunction over its modes of their locations and guard.
#[tactic(auto, using(st_form::proofs::Nodes::nodes))]
pub fn enabled(alloc: Global, transition: &Transition) -> Result<Form, Memory>
    ensures form { IfOk result (λ f. plain f ≡ enabled_form (plain_transition transition.now)) }
    ensures truth { IfOk result (λ f. (s : Situation)
        → truth s (plain f) ≡ is_enabled (plain_transition transition.now) s) }
{
    let mut ways = Vec::new(alloc);
    for mode in &transition.modes {
        ways.push(mode_enabled(alloc, mode)?)?;
    }
    Ok(Form::Or(ways))
}

/// The formula that holds where the mode can be taken.
#[tactic(auto, using(st_form::proofs::Nodes::nodes))]
fn mode_enabled(alloc: Global, mode: &Mode) -> Result<Form, Memory>
    ensures { IfOk result (λ f. plain f ≡ every (formulas (enabling_of (plain_mode mode.now)))) }
{
    let mut parts = Vec::new(alloc);
    for location in &mode.at {
        parts.push(Form::At(*location))?;
    }
    parts.push(mode.guard.copy(alloc)?)?;
    Ok(Form::And(parts))
}

/// The place of the first transition with this name.
pub fn find_among(transitions: &[Transition], name: TransName) -> Option<u32>
    requires { length transitions.now < 2 ^ 32 }
    ensures found { IfSome result (λ place. option_map (λ t. t.name) (slice_get transitions.now place) ≡ Some name) }
    ensures absent { result ≡ None → All (λ t. t.name ≢ name) transitions.now }
{
    for (place, transition) in transitions.iter().enumerate() {
        if transition.name == name {
            return Some(place as u32);
        }
    }
    None
}

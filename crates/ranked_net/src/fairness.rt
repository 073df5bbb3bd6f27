//! What a system owes to a transition, and where it is enabled, by the transition's number. A number that names no transition
//! is owed nothing, and is never enabled.

ghost use Rattle.std.specs.Prelude.{◌≡◌, IfOk, map, slice_get};
ghost use Rattle.st_form.specs.Plain.{plain};
ghost use Rattle.transition_system.specs.Plain.{plain_transition, plain_system};
ghost use Rattle.rule_laws.specs.Names.{is_name as is_name_of, enabled_if, enabled_of as enabled_of_name};
ghost use Rattle.ranked_net.specs.Making.{is_unfair as is_unfair_of, is_uncompassionate as is_uncompassionate_of};

use st_form::Form;
use st_memory::Memory;
use std::alloc::Global;
use transition_system::{Fairness, Fts, Transition, enabled};

/// Whether the name is there and is this number.
pub fn is_name(name: Option<u32>, number: u32) -> bool
    ensures { result ≡ is_name_of name number }
{
    match name {
        Some(name) => name == number,
        None => false,
    }
}

/// What is owed to the transition.
#[tactic(auto, using(crate::proofs::Found::fairness_some, crate::proofs::Found::fairness_none))]
fn fairness_among(transitions: &[Transition], number: u32) -> Option<Fairness>
    ensures { result ≡ slice_get (map (λ t. t.fairness) (map plain_transition transitions.now)) number }
{
    match transitions.get(number as usize) {
        Some(transition) => Some(transition.fairness),
        None => None,
    }
}

/// Whether there is a helper that isn't just.
pub fn is_unfair(fts: &Fts, helper: Option<u32>) -> bool
    ensures { result ≡ is_unfair_of (plain_system fts.now) helper }
{
    match helper {
        Some(helper) => match fairness_among(&fts.transitions, helper) {
            Some(Fairness::Just | Fairness::Compassionate) => false,
            Some(Fairness::Unfair) | None => true,
        },
        None => false,
    }
}

/// Whether there is a group that isn't compassionate.
pub fn is_uncompassionate(fts: &Fts, group: Option<u32>) -> bool
    ensures { result ≡ is_uncompassionate_of (plain_system fts.now) group }
{
    match group {
        Some(group) => match fairness_among(&fts.transitions, group) {
            Some(Fairness::Compassionate) => false,
            Some(Fairness::Unfair | Fairness::Just) | None => true,
        },
        None => false,
    }
}

/// The formula that holds where the transition is enabled.
#[tactic(auto, using(crate::proofs::Found::enabled_some, crate::proofs::Found::enabled_none))]
fn enabled_among(alloc: Global, transitions: &[Transition], number: u32) -> Result<Form, Memory>
    ensures { IfOk result (λ f. plain f ≡ enabled_if (slice_get (map plain_transition transitions.now) number)) }
{
    match transitions.get(number as usize) {
        Some(transition) => enabled(alloc, transition),
        None => Ok(Form::False),
    }
}

/// The formula that holds where the transition is enabled, if there is one.
pub fn enabled_of(alloc: Global, fts: &Fts, name: Option<u32>) -> Result<Form, Memory>
    ensures { IfOk result (λ f. plain f ≡ enabled_of_name (plain_system fts.now) name) }
{
    match name {
        Some(number) => enabled_among(alloc, &fts.transitions, number),
        None => Ok(Form::False),
    }
}

//! A formula in a state of which only some variables and locations are known, evaluated in the strong logic of three values (Kleene,
//! *Introduction to Metamathematics*, 1952, section 64): a conjunction is false where one part is, whatever the others are.

ghost use Rattle.std.specs.Prelude.{◌≡◌, Bool, IfOk, not};
ghost use Rattle.std.specs.Option.{option_map};
ghost use Rattle.st_form.specs.Plain.{plain, plain_list};
ghost use Rattle.agreeing_states.specs.Agreeing.{is_known};
ghost use Rattle.agreeing_states.specs.Kleene.{are_known, atom_told, both, either, every_told, some_told, told};

use spl_semantics::{MoveFault, is_true_at};
use st_form::Form;
use st_memory::Memory;
use st_program::Datum;

/// Of which variables the value is known, and of which locations whether control is there, by their numbers.
#[derive(Drop)]
pub struct Known {
    pub variables: Vec<bool>,
    pub locations: Vec<bool>,
}

fn is_known(flags: &[bool], number: u32) -> bool
    ensures { result ≡ is_known flags.now number }
{
    match flags.get(number as usize) {
        Some(flag) => *flag,
        None => false,
    }
}

/// Whether all variables of a sum are known.
fn are_known(flags: &[bool], entries: &[(u32, i128)]) -> bool
    ensures { result ≡ are_known flags.now entries.now }
{
    for entry in entries {
        if !is_known(flags, entry.0) {
            return false;
        }
    }
    true
}

fn both(one: Option<bool>, other: Option<bool>) -> Option<bool>
    ensures { result ≡ both one other }
{
    match (one, other) {
        (Some(false), _) => Some(false),
        (Some(true), other) => other,
        (None, Some(false)) => Some(false),
        (None, Some(true)) => None,
        (None, None) => None,
    }
}

fn either(one: Option<bool>, other: Option<bool>) -> Option<bool>
    ensures { result ≡ either one other }
{
    match (one, other) {
        (Some(true), _) => Some(true),
        (Some(false), other) => other,
        (None, Some(true)) => Some(true),
        (None, Some(false)) => None,
        (None, None) => None,
    }
}

fn denied(told: Option<bool>) -> Option<bool>
    ensures { result ≡ option_map not told }
{
    match told {
        Some(told) => Some(!told),
        None => None,
    }
}

/// What is told of an atom, where it is known whether all is known that it speaks of.
fn atom(known: bool, store: &[Datum], fronts: &[u32], form: &Form) -> Result<Option<bool>, Memory>
    ensures { IfOk result (λ o. o ≡ atom_told known store.now fronts.now (plain form.now)) }
{
    if !known {
        return Ok(None);
    }
    match is_true_at(form, store, fronts) {
        Ok(holds) => Ok(Some(holds)),
        Err(MoveFault::ValueLimit) => Ok(None),
        Err(MoveFault::Memory) => Err(Memory),
    }
}

/// What is told of a formula in a state with these values and with control at these locations: nothing where it hangs on what isn't
/// known, or a number on the way is of size 2^126 or more. Want of memory is the only other answer.
#[cycle(told)]
#[tactic(auto, using(st_form::proofs::Nodes::nodes))]
pub fn told(
    form: &Form,
    known: &Known,
    store: &[Datum],
    fronts: &[u32],
) -> Result<Option<bool>, Memory>
    ensures { IfOk result (λ o. o ≡ told known.now store.now fronts.now (plain form.now)) }
{
    match form {
        Form::True => Ok(Some(true)),
        Form::False => Ok(Some(false)),
        Form::Row(sum) => atom(
            are_known(&known.variables, sum.entries()),
            store,
            fronts,
            form,
        ),
        Form::Equal(sum) => atom(
            are_known(&known.variables, sum.entries()),
            store,
            fronts,
            form,
        ),
        Form::BoolVar(variable) => atom(is_known(&known.variables, *variable), store, fronts, form),
        Form::At(location) => atom(is_known(&known.locations, *location), store, fronts, form),
        Form::Not(inner) => Ok(denied(told(inner, known, store, fronts)?)),
        Form::And(parts) => all_told(parts, known, store, fronts),
        Form::Or(parts) => any_told(parts, known, store, fronts),
    }
}

/// What is told of all of these formulas together.
#[cycle(told)]
fn all_told(
    forms: &[Form],
    known: &Known,
    store: &[Datum],
    fronts: &[u32],
) -> Result<Option<bool>, Memory>
    ensures { IfOk result (λ o. o ≡ every_told known.now store.now fronts.now (plain_list forms.now)) }
{
    let mut all = Some(true);
    for form in forms {
        let one = told(form, known, store, fronts)?;
        all = both(all, one);
    }
    Ok(all)
}

/// What is told of that some of these formulas holds.
#[cycle(told)]
fn any_told(
    forms: &[Form],
    known: &Known,
    store: &[Datum],
    fronts: &[u32],
) -> Result<Option<bool>, Memory>
    ensures { IfOk result (λ o. o ≡ some_told known.now store.now fronts.now (plain_list forms.now)) }
{
    let mut any = Some(false);
    for form in forms {
        let one = told(form, known, store, fronts)?;
        any = either(any, one);
    }
    Ok(any)
}

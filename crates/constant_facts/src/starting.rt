//! Which facts the start gives: control is at the locations that the initial condition names, and there a variable has the value
//! that one of its conjuncts says.

ghost use Rattle.std.specs.Prelude.{◌≡◌, ◌++◌, IfOk, OnOk, filter};
ghost use Rattle.st_form.specs.Plain.{plain, plain_list};
ghost use Rattle.constant_facts.specs.Rules.{equation_says, variable_says, denial_says, says, one_says, places, places_among, is_first, first_of, places_or};

use crate::fact::{Constant, Fact};
use crate::keeping::{decided, is_absent};
use control_states::Components;
use st_form::Form;
use st_linear::Lin;
use st_memory::Memory;
use std::alloc::Global;

/// Whether an equation is one between the variable and this number.
#[tactic(auto, unfolding(st_linear::specs::Linear::is_within))]
fn equation_says(form: &Lin, variable: u32, value: &Constant) -> bool
    ensures { result ≡ equation_says form.now variable value.now }
{
    match value {
        Constant::Truth(_) => false,
        Constant::Number(z) => match form.entries() {
            [entry] => {
                entry.0 == variable
                    && (entry.1 == 1 && *z == -form.constant()
                        || entry.1 == -1 && *z == form.constant())
            }
            _ => false,
        },
    }
}

/// Whether a literal of this sign says it.
fn variable_says(said: u32, variable: u32, value: &Constant, sign: bool) -> bool
    ensures { result ≡ variable_says said variable value.now sign }
{
    match value {
        Constant::Number(_) => false,
        Constant::Truth(truth) => said == variable && *truth == sign,
    }
}

#[tactic(auto, using(st_form::proofs::Nodes::nodes))]
fn denial_says(form: &Form, variable: u32, value: &Constant) -> bool
    ensures { result ≡ denial_says (plain form.now) variable value.now }
{
    match form {
        Form::BoolVar(v) => variable_says(*v, variable, value, false),
        Form::True
        | Form::False
        | Form::Row(_)
        | Form::Equal(_)
        | Form::At(_)
        | Form::Not(_)
        | Form::And(_)
        | Form::Or(_) => false,
    }
}

/// Whether one of the parts of the conjunction says that the variable has the value.
#[cycle(says)]
#[tactic(auto, using(st_form::proofs::Nodes::nodes))]
fn says(form: &Form, variable: u32, value: &Constant) -> bool
    ensures { result ≡ says (plain form.now) variable value.now }
{
    match form {
        Form::Equal(f) => equation_says(f, variable, value),
        Form::BoolVar(v) => variable_says(*v, variable, value, true),
        Form::Not(f) => denial_says(f, variable, value),
        Form::And(fs) => one_says(fs, variable, value),
        Form::True | Form::False | Form::Row(_) | Form::At(_) | Form::Or(_) => false,
    }
}

#[cycle(says)]
fn one_says(forms: &[Form], variable: u32, value: &Constant) -> bool
    ensures { result ≡ one_says (plain_list forms.now) variable value.now }
{
    for form in forms {
        if says(form, variable, value) {
            return true;
        }
    }
    false
}

/// Appends the locations among the parts.
#[cycle(places)]
#[tactic(auto, using(st_form::proofs::Nodes::nodes))]
fn push_places(form: &Form, out: &mut Vec<u32>) -> Result<(), Memory>
    ensures { OnOk result (out.new.items ≡ out.old.items ++ places (plain form.now)) }
{
    match form {
        Form::At(l) => {
            out.push(*l)?;
            Ok(())
        }
        Form::And(fs) => push_all_places(fs, out),
        Form::True
        | Form::False
        | Form::Row(_)
        | Form::Equal(_)
        | Form::BoolVar(_)
        | Form::Not(_)
        | Form::Or(_) => Ok(()),
    }
}

#[cycle(places)]
fn push_all_places(forms: &[Form], out: &mut Vec<u32>) -> Result<(), Memory>
    ensures { OnOk result (out.new.items ≡ out.old.items ++ places_among (plain_list forms.now)) }
{
    for form in forms {
        push_places(form, out)?;
    }
    Ok(())
}

/// Whether the fact holds at the beginning.
fn is_first(places: &[Option<bool>], initial: &Form, fact: &Fact) -> bool
    ensures { result ≡ is_first (places_or places.now) (plain initial.now) fact.now }
{
    is_absent(places, fact.place) || says(initial, fact.variable, &fact.value)
}

/// Those of the facts that hold at the beginning, where what is decided of locations is in a table.
fn first_among(
    alloc: Global,
    places: &[Option<bool>],
    beginning: &Form,
    facts: &[Fact],
) -> Result<Vec<Fact>, Memory>
    ensures { IfOk result (λ v. v.items ≡ filter (is_first (places_or places.now) (plain beginning.now)) facts.now) }
{
    let mut out = Vec::new(alloc);
    for fact in facts {
        if is_first(places, beginning, fact) {
            out.push(*fact)?;
        }
    }
    Ok(out)
}

/// The locations that the initial condition names.
fn places_of(alloc: Global, initial: &Form) -> Result<Vec<u32>, Memory>
    ensures { IfOk result (λ v. v.items ≡ places (plain initial.now)) }
{
    let mut out = Vec::new(alloc);
    push_places(initial, &mut out)?;
    Ok(out)
}

/// Those of the facts that hold at the beginning.
pub(crate) fn first_of(
    alloc: Global,
    components: &Components,
    initial: &Form,
    facts: &[Fact],
) -> Result<Vec<Fact>, Memory>
    ensures { IfOk result (λ v. v.items ≡ first_of components.now (plain initial.now) facts.now) }
{
    let starts = places_of(alloc, initial)?;
    let table = decided(alloc, components, &starts)?;
    first_among(alloc, &table, initial, facts)
}

//! Formulas in a store with control at some locations, each evaluated whole, so that whether a number on the way is too large
//! doesn't depend on an order.

ghost use Rattle.std.specs.Prelude.{◌≡◌};
ghost use Rattle.st_form.specs.Exchange.{is_listed};
ghost use Rattle.st_form.specs.Formula.{truth, every_truth, some_truth};
ghost use Rattle.st_form.specs.Plain.{plain, plain_list};
ghost use Rattle.spl_semantics.specs.Data.{store_of, seen_at};
ghost use Rattle.spl_semantics.specs.Limits.{wide_formula, wide_formulas};
ghost use Rattle.spl_semantics.specs.Answers.{Answers};

use crate::evaluation::value_of;
use crate::faults::MoveFault;
use st_form::Form;
use st_program::Datum;

/// The truth value of a variable, or false where it has none.
fn truth_at(store: &[Datum], variable: u32) -> bool
    ensures { result ≡ (store_of store.now).truths variable }
{
    match store.get(variable as usize) {
        Some(Datum::Truth(truth)) => *truth,
        Some(Datum::Number(_)) => false,
        None => false,
    }
}

/// Whether the location is one of those.
fn is_listed(location: u32, fronts: &[u32]) -> bool
    ensures { result ≡ is_listed location fronts.now }
{
    for front in fronts {
        if *front == location {
            return true;
        }
    }
    false
}

/// Whether a formula holds, with control at these locations.
#[cycle(holds)]
#[tactic(auto, using(st_form::proofs::Nodes::nodes))]
pub fn is_true_at(form: &Form, store: &[Datum], fronts: &[u32]) -> Result<bool, MoveFault>
    ensures { Answers (λ b. b) result
        (wide_formula (plain form.now) (store_of store.now))
        (truth (seen_at store.now fronts.now) (plain form.now)) }
{
    match form {
        Form::True => Ok(true),
        Form::False => Ok(false),
        Form::Row(row) => Ok(value_of(row, store)? >= 0),
        Form::Equal(row) => Ok(value_of(row, store)? == 0),
        Form::BoolVar(variable) => Ok(truth_at(store, *variable)),
        Form::At(location) => Ok(is_listed(*location, fronts)),
        Form::Not(inner) => Ok(!is_true_at(inner, store, fronts)?),
        Form::And(parts) => all_true(parts, store, fronts),
        Form::Or(parts) => any_true(parts, store, fronts),
    }
}

/// Whether all of these formulas hold. Each is evaluated.
#[cycle(holds)]
fn all_true(forms: &[Form], store: &[Datum], fronts: &[u32]) -> Result<bool, MoveFault>
    ensures { Answers (λ b. b) result
        (wide_formulas (plain_list forms.now) (store_of store.now))
        (every_truth (seen_at store.now fronts.now) (plain_list forms.now)) }
{
    let mut all = true;
    for form in forms {
        let holds = is_true_at(form, store, fronts)?;
        if !holds {
            all = false;
        }
    }
    Ok(all)
}

/// Whether some of these formulas holds. Each is evaluated.
#[cycle(holds)]
fn any_true(forms: &[Form], store: &[Datum], fronts: &[u32]) -> Result<bool, MoveFault>
    ensures { Answers (λ b. b) result
        (wide_formulas (plain_list forms.now) (store_of store.now))
        (some_truth (seen_at store.now fronts.now) (plain_list forms.now)) }
{
    let mut any = false;
    for form in forms {
        let holds = is_true_at(form, store, fronts)?;
        if holds {
            any = true;
        }
    }
    Ok(any)
}

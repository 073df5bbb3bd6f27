//! A state, and what holds in it.

ghost use Rattle.std.specs.Prelude.{◌≡◌, IfOk, IfSome};
ghost use Rattle.st_form.specs.Formula.{truth};
ghost use Rattle.st_form.specs.Plain.{plain};
ghost use Rattle.st_linear.specs.Linear.{value};
ghost use Rattle.shown_states.specs.Pictures.{fronts_of, seen};

use control_states::Alternative;
use search_verdicts::Shown;
use spl_semantics::{is_true_at, value_of};
use st_form::{Form, Lin};
use st_memory::Memory;
use st_program::Datum;
use std::alloc::Global;

/// What each active component is at, by rising number, at which locations control is therefore, and the value of each variable.
#[derive(Drop)]
pub struct Picture {
    pub control: Vec<(u32, Alternative)>,
    pub fronts: Vec<u32>,
    pub store: Vec<Datum>,
}

/// The locations among alternatives.
pub(crate) fn fronts_of(alloc: Global, control: &[(u32, Alternative)]) -> Result<Vec<u32>, Memory>
    ensures { IfOk result (λ v. v.items ≡ fronts_of control.now) }
{
    let mut fronts = Vec::new(alloc);
    for entry in control {
        match entry.1 {
            Alternative::Location(location) => fronts.push(location)?,
            Alternative::Inside(_) => {}
        }
    }
    Ok(fronts)
}

impl Picture {
    /// The state that is shown with an open condition.
    pub fn of(alloc: Global, shown: &Shown) -> Result<Picture, Memory>
        ensures control { IfOk result (λ p. p.control.items ≡ shown.now.control.items) }
        ensures fronts { IfOk result (λ p. p.fronts.items ≡ fronts_of shown.now.control.items) }
        ensures store { IfOk result (λ p. p.store.items ≡ shown.now.store.items) }
    {
        Ok(Picture {
            control: Vec::from_slice(alloc, &shown.control)?,
            fronts: fronts_of(alloc, &shown.control)?,
            store: Vec::from_slice(alloc, &shown.store)?,
        })
    }

    /// Whether a formula holds in the state; `None` where a number on the way is of size 2^126 or more.
    pub fn holds(&self, form: &Form) -> Option<bool>
        ensures { IfSome result (λ holds. holds ≡ truth (seen self.now) (plain form.now)) }
    {
        match is_true_at(form, &self.store, &self.fronts) {
            Ok(holds) => Some(holds),
            Err(_) => None,
        }
    }

    /// The value of a sum in the state; `None` where a number on the way is of size 2^126 or more.
    pub fn value(&self, sum: &Lin) -> Option<i128>
        ensures { IfSome result (λ z. z ≡ value (seen self.now).numbers sum.now) }
    {
        match value_of(sum, &self.store) {
            Ok(value) => Some(value),
            Err(_) => None,
        }
    }
}

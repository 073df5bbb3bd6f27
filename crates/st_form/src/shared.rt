//! Formulas that conditions share: a condition refers to a formula that stands in many of them, and doesn't copy it.

ghost use Rattle.std.specs.Prelude.{◌≡◌, ◌-◌, ◌^◌, IfOk, map, min};
ghost use Rattle.st_form.specs.Formula.{weight};
ghost use Rattle.st_form.specs.Forms.{AllForms, HasEntries, width};
ghost use Rattle.st_form.specs.Plain.{plain};
ghost use Rattle.st_form.specs.declared.formulas.Form.{Form};

use crate::formulas::Form;
use crate::widths::width_of_form;
use st_memory::Memory;
use std::alloc::Global;
use std::marker::Model;
use std::sync::Arc;

/// A formula that is shared. Its number tells it from most others: it is a hint of where to look for what is known of it.
#[derive(Drop)]
pub struct SharedForm {
    form: Arc<Form, Global>,
    hint: u32,
    weight: u64,
    width: u64,
}

impl Model for SharedForm {
    ghost use Rattle.std.specs.Prelude.{◌≡◌, ◌-◌, ◌^◌, min};
    ghost use Rattle.std.specs.Arc.{arc_value};
    ghost use Rattle.st_form.specs.Formula.{weight as weight_of};
    ghost use Rattle.st_form.specs.Forms.{AllForms, HasEntries, width as width_of};
    ghost use Rattle.st_form.specs.Plain.{plain};
    ghost use Rattle.st_form.specs.declared.formulas.Form.{Form};
    ghost use Rattle.st_form.specs.contracts.formulas.Form as form_code;

    ghost Value = { Form };

    ghost coded = { form_code.the_row.coded };

    ghost view = { λ s. arc_value s.form };

    ghost invariant = { λ s. (s.weight ≡ min (weight_of (plain (arc_value s.form))) (2 ^ 64 - 1))
        × (s.width ≡ width_of (plain (arc_value s.form)))
        × AllForms HasEntries (plain (arc_value s.form)) };
}

impl SharedForm {
    /// A formula that can be shared.
    pub fn new(alloc: Global, form: Form, hint: u32) -> Result<SharedForm, Memory>
        ensures { IfOk result (λ s. s ≡ form) }
    {
        let weight = form.weight();
        let width = width_of_form(&form);
        let form = Arc::new(alloc, form)?;
        Ok(SharedForm {
            form,
            hint,
            weight,
            width,
        })
    }

    /// The same formula once more.
    pub fn share(&self) -> Result<SharedForm, Memory>
        ensures { IfOk result (λ s. s ≡ self.now) }
    {
        let form = Arc::try_clone(&self.form)?;
        Ok(SharedForm {
            form,
            hint: self.hint,
            weight: self.weight,
            width: self.width,
        })
    }

    /// The formula.
    pub fn get(&self) -> &Form
        ensures { result.now ≡ self.now }
    {
        &self.form
    }

    /// The number that it was given.
    pub fn hint(&self) -> u32 {
        self.hint
    }

    /// The atoms and the entries of the forms, or 2^64 - 1 where there are more.
    pub fn weight(&self) -> u64
        ensures { result ≡ min (weight (plain self.now)) (2 ^ 64 - 1) }
    {
        self.weight
    }

    /// One more than the greatest variable of the forms, or 0 where there is none. In each form variables rise, and no
    /// coefficient is 0.
    pub fn width(&self) -> u64
        ensures exact { result ≡ width (plain self.now) }
        ensures proper { AllForms HasEntries (plain self.now) }
    {
        self.width
    }
}

/// Copies of shared formulas.
pub(crate) fn unshared(alloc: Global, forms: &[SharedForm]) -> Result<Vec<Form>, Memory>
    ensures { IfOk result (λ v. map plain v.items ≡ map plain forms.now) }
{
    let mut out = Vec::with_capacity(alloc, forms.len())?;
    for form in forms {
        out.push(form.get().copy(alloc)?)?;
    }
    Ok(out)
}

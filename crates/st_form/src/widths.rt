//! How many variables the rows and equations of a formula reach to. Their entries are read on the way, so that what their
//! type says is known: variables rise, and no coefficient is 0.

ghost use Rattle.std.specs.Prelude.{◌≡◌, max};
ghost use Rattle.st_form.specs.Forms.{AllForms, AllFormsOf, HasEntries, entries_width, width, width_of};
ghost use Rattle.st_form.specs.Plain.{plain, plain_list};

use crate::formulas::Form;

fn larger(a: u64, b: u64) -> u64
    ensures { result ≡ max a b }
{
    if a < b { b } else { a }
}

fn width_of_entries(entries: &[(u32, i128)]) -> u64
    ensures { result ≡ entries_width entries.now }
{
    let mut most: u64 = 0;
    for entry in entries {
        most = larger(most, entry.0 as u64 + 1);
    }
    most
}

/// One more than the greatest variable of a formula's forms, or 0 where there is none.
#[cycle(width)]
#[tactic(auto, using(crate::proofs::Nodes::nodes))]
pub fn width_of_form(form: &Form) -> u64
    ensures exact { result ≡ width (plain form.now) }
    ensures proper { AllForms HasEntries (plain form.now) }
{
    match form {
        Form::True | Form::False | Form::BoolVar(_) | Form::At(_) => 0,
        Form::Row(f) | Form::Equal(f) => width_of_entries(f.entries()),
        Form::Not(f) => width_of_form(f),
        Form::And(fs) => width_of_all(fs),
        Form::Or(fs) => width_of_all(fs),
    }
}

#[cycle(width)]
fn width_of_all(forms: &[Form]) -> u64
    ensures exact { result ≡ width_of (plain_list forms.now) }
    ensures proper { AllFormsOf HasEntries (plain_list forms.now) }
{
    let mut most: u64 = 0;
    for form in forms {
        most = larger(most, width_of_form(form));
    }
    most
}

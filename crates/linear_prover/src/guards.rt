//! What the search asks of the variables of a condition, as tests that can be computed. A true answer is a proof of it.

ghost use Rattle.std.specs.Prelude.{◌≡◌, true, map};
ghost use Rattle.st_form.specs.Formula.{formulas};
ghost use Rattle.st_form.specs.Plain.{plain, plain_list};
ghost use Rattle.st_form.specs.Shared.{given_of, shown_of, case_of, consequent_of};
ghost use Rattle.search_laws.specs.Forms.{AllForms, AllFormsOf};
ghost use Rattle.search_laws.specs.Searchable.{IsBelow};

use st_form::{Condition, Consequent, SharedForm};

/// Whether each variable in a row or an equation of a shared formula is below the count.
fn is_below(count: usize, form: &SharedForm) -> bool
    ensures { result ≡ true → AllForms (IsBelow count) (plain form.now) }
{
    form.width() <= count as u64
}

/// Whether each variable in a row or an equation of a condition is below the count.
pub fn is_condition_below(count: usize, condition: &Condition) -> bool
    ensures { result ≡ true → AllForms (IsBelow count) (given_of condition.now) × AllForms (IsBelow count) (shown_of condition.now) }
{
    parts_are_below(count, &condition.given) && is_consequent_below(count, &condition.shown)
}

fn is_consequent_below(count: usize, shown: &Consequent) -> bool
    ensures { result ≡ true → AllForms (IsBelow count) (consequent_of shown.now) }
{
    match shown {
        Consequent::One(form) => is_below(count, form),
        Consequent::Any(cases) => cases_are_below(count, cases),
    }
}

fn cases_are_below(count: usize, cases: &[Vec<SharedForm>]) -> bool
    ensures { result ≡ true → AllFormsOf (IsBelow count) (formulas (map case_of cases.now)) }
{
    for case in cases {
        if !parts_are_below(count, case) {
            return false;
        }
    }
    true
}

fn parts_are_below(count: usize, parts: &[SharedForm]) -> bool
    ensures { result ≡ true → AllFormsOf (IsBelow count) (plain_list parts.now) }
{
    for part in parts {
        if !is_below(count, part) {
            return false;
        }
    }
    true
}

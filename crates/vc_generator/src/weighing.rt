//! How much a condition weighs, from what its parts weigh. Sums that pass the largest number of 64 bits stand still there.

ghost use Rattle.std.specs.Prelude.{◌≡◌, ◌-◌, ◌^◌, map, min};
ghost use Rattle.st_form.specs.Formula.{formulas, weight, weight_of};
ghost use Rattle.st_form.specs.Plain.{plain_list};
ghost use Rattle.st_form.specs.Shared.{case_of, consequent_of, plain_condition};
ghost use Rattle.vc_generator.specs.Refusing.{weight_in};

use st_form::{Condition, Consequent, SharedForm};

/// The atoms and the entries of linear forms of what is given and what is shown, or 2^64 - 1 where there are more.
pub fn condition_weight(condition: &Condition) -> u64
    ensures { result ≡ min (weight_in (plain_condition condition.now)) (2 ^ 64 - 1) }
{
    let given = weight_of_all(&condition.given);
    given.saturating_add(shown_weight(&condition.shown))
}

fn shown_weight(shown: &Consequent) -> u64
    ensures { result ≡ min (weight (consequent_of shown.now)) (2 ^ 64 - 1) }
{
    match shown {
        Consequent::One(form) => form.weight(),
        Consequent::Any(cases) => weight_of_cases(cases),
    }
}

fn weight_of_all(forms: &[SharedForm]) -> u64
    ensures { result ≡ min (weight_of (plain_list forms.now)) (2 ^ 64 - 1) }
{
    let mut sum: u64 = 0;
    for form in forms {
        sum = sum.saturating_add(form.weight());
    }
    sum
}

fn weight_of_cases(cases: &[Vec<SharedForm>]) -> u64
    ensures { result ≡ min (weight_of (formulas (map case_of cases.now))) (2 ^ 64 - 1) }
{
    let mut sum: u64 = 0;
    for case in cases {
        sum = sum.saturating_add(weight_of_all(case));
    }
    sum
}

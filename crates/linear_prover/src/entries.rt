//! What is known of each form of a condition, since each shared formula knows it: variables rise, and no coefficient is 0.

ghost use Rattle.std.specs.Prelude.{map};
ghost use Rattle.st_form.specs.Formula.{formulas};
ghost use Rattle.st_form.specs.Plain.{plain_list};
ghost use Rattle.st_form.specs.Shared.{given_of, shown_of, case_of, consequent_of};
ghost use Rattle.search_laws.specs.Forms.{AllForms, AllFormsOf};
ghost use Rattle.search_laws.specs.Steady.{HasEntries};

use st_form::{Condition, Consequent, SharedForm};

/// Does nothing but let a caller know of each form of a condition that it is proper: variables rise, and no coefficient is 0.
pub fn look_at_condition(condition: &Condition)
    ensures given { AllForms HasEntries (given_of condition.now) }
    ensures shown { AllForms HasEntries (shown_of condition.now) }
{
    look_at_parts(&condition.given);
    look_at_consequent(&condition.shown);
}

fn look_at_consequent(shown: &Consequent)
    ensures { AllForms HasEntries (consequent_of shown.now) }
{
    match shown {
        Consequent::One(form) => {
            let _width = form.width();
        }
        Consequent::Any(cases) => look_at_cases(cases),
    }
}

fn look_at_cases(cases: &[Vec<SharedForm>])
    ensures { AllFormsOf HasEntries (formulas (map case_of cases.now)) }
{
    for case in cases {
        look_at_parts(case);
    }
}

fn look_at_parts(parts: &[SharedForm])
    ensures { AllFormsOf HasEntries (plain_list parts.now) }
{
    for part in parts {
        let _width = part.width();
    }
}

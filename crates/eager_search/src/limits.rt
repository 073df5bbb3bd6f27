//! What simplification and the check of certificates ask of numbers, as tests that can be computed. A true answer is a proof of it.

ghost use Rattle.std.specs.Prelude.{◌≡◌, ◌<◌, ◌≤◌, ◌^◌, All, true, length, unsigned_abs};
ghost use Rattle.st_form.specs.Plain.{plain, plain_list};
ghost use Rattle.st_form.specs.Simple.{AreModest, IsModest};

use st_form::Form;
use st_linear::Lin;

/// No constant of a formula that is simplified may have this size or more.
const LIMIT: u128 = 1 << 99;

/// Whether the constant of a form is below 2^99 in size.
pub(crate) fn is_small(form: &Lin) -> bool
    ensures { result ≡ true → unsigned_abs form.now.constant < 2 ^ 99 }
{
    form.constant().unsigned_abs() < LIMIT
}

/// Whether each constant of a formula is below 2^99 in size.
#[cycle(modest)]
#[tactic(auto, using(st_form::proofs::Nodes::nodes))]
pub(crate) fn is_modest(form: &Form) -> bool
    ensures { result ≡ true → IsModest (plain form.now) }
{
    match form {
        Form::True => true,
        Form::False => true,
        Form::Row(row) => is_small(row),
        Form::Equal(row) => is_small(row),
        Form::BoolVar(_) => true,
        Form::At(_) => true,
        Form::Not(part) => is_modest(part),
        Form::And(parts) => are_modest(parts),
        Form::Or(parts) => are_modest(parts),
    }
}

#[cycle(modest)]
fn are_modest(forms: &[Form]) -> bool
    ensures { result ≡ true → AreModest (plain_list forms.now) }
{
    for form in forms {
        if !is_modest(form) {
            return false;
        }
    }
    true
}

//! Whether the numbers of formulas are small enough for the search of conditions, as a test that can be computed. A true answer is a
//! proof of it.

ghost use Rattle.std.specs.Prelude.{◌≡◌, ◌<◌, ◌^◌, All, true, unsigned_abs};
ghost use Rattle.st_form.specs.Plain.{plain, plain_list};
ghost use Rattle.farkas_check.specs.Limits.{AreNarrow, IsNarrow, IsSlight};

use st_form::{Form, SharedForm};
use st_linear::Lin;

/// No number of a condition may have this size or more.
const LIMIT: u128 = 1 << 69;

fn is_small(number: &i128) -> bool
    ensures { result ≡ true → unsigned_abs number.now < 2 ^ 69 }
{
    number.unsigned_abs() < LIMIT
}

fn are_small(entries: &[(u32, i128)]) -> bool
    ensures { result ≡ true → All (λ e. unsigned_abs e.1 < 2 ^ 69) entries.now }
{
    for entry in entries {
        if !is_small(&entry.1) {
            return false;
        }
    }
    true
}

fn is_slight(row: &Lin) -> bool
    ensures { result ≡ true → IsSlight row.now }
{
    is_small(&row.constant()) && are_small(row.entries())
}

/// Whether each number of a formula is below 2^69 in size.
#[cycle(narrow)]
#[tactic(auto, using(st_form::proofs::Nodes::nodes))]
pub(crate) fn is_narrow(form: &Form) -> bool
    ensures { result ≡ true → IsNarrow (plain form.now) }
{
    match form {
        Form::True => true,
        Form::False => true,
        Form::Row(row) => is_slight(row),
        Form::Equal(row) => is_slight(row),
        Form::BoolVar(_) => true,
        Form::At(_) => true,
        Form::Not(part) => is_narrow(part),
        Form::And(parts) => are_narrow(parts),
        Form::Or(parts) => are_narrow(parts),
    }
}

#[cycle(narrow)]
fn are_narrow(forms: &[Form]) -> bool
    ensures { result ≡ true → AreNarrow (plain_list forms.now) }
{
    for form in forms {
        if !is_narrow(form) {
            return false;
        }
    }
    true
}

/// Whether each number of shared formulas is below 2^69 in size.
pub(crate) fn are_given_narrow(forms: &[SharedForm]) -> bool
    ensures { result ≡ true → AreNarrow (plain_list forms.now) }
{
    for form in forms {
        if !is_narrow(form.get()) {
            return false;
        }
    }
    true
}

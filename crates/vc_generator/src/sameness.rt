//! Whether two changes are the same, part by part.

ghost use Rattle.std.specs.Prelude.{◌≡◌, ℕ, map, true};
ghost use Rattle.st_form.specs.Formula.{Formula};
ghost use Rattle.st_form.specs.Plain.{plain, plain_change};

use st_form::{Change, Form, Lin, is_same, is_same_line};

/// Whether two changes are the same.
pub fn is_same_change(c: &Change, d: &Change) -> bool
    ensures { result ≡ true → plain_change c.now ≡ plain_change d.now }
{
    are_same_numbers(&c.numbers, &d.numbers)
        && are_same_truths(&c.truths, &d.truths)
        && are_same_locations(&c.leaves, &d.leaves)
        && are_same_locations(&c.enters, &d.enters)
}

fn are_same_numbers(xs: &[(u32, Lin)], ys: &[(u32, Lin)]) -> bool
    ensures { result ≡ true → xs.now ≡ ys.now }
{
    if xs.len() != ys.len() {
        return false;
    }
    for (place, x) in xs.iter().enumerate() {
        let y = &ys[place];
        if x.0 != y.0 || !is_same_line(&x.1, &y.1) {
            return false;
        }
    }
    true
}

fn are_same_truths(xs: &[(u32, Form)], ys: &[(u32, Form)]) -> bool
    ensures { result ≡ true → map {B = ℕ × Formula} (λ p. (p.0, plain p.1)) xs.now ≡ map {B = ℕ × Formula} (λ p. (p.0, plain p.1)) ys.now }
{
    if xs.len() != ys.len() {
        return false;
    }
    for (place, x) in xs.iter().enumerate() {
        let y = &ys[place];
        if x.0 != y.0 || !is_same(&x.1, &y.1) {
            return false;
        }
    }
    true
}

fn are_same_locations(xs: &[u32], ys: &[u32]) -> bool
    ensures { result ≡ true → xs.now ≡ ys.now }
{
    xs == ys
}

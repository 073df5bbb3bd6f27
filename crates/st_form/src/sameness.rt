//! Whether two formulas are the same, part by part.

ghost use Rattle.std.specs.Prelude.{◌≡◌, true};
ghost use Rattle.st_form.specs.Plain.{plain, plain_list};

use crate::formulas::Form;
use st_linear::Lin;

/// Whether two numbers are equal.
fn is_same_number(x: &i128, y: &i128) -> bool
    ensures { result ≡ true → x.now ≡ y.now }
{
    *x == *y
}

/// Whether two lists of entries are equal.
#[tactic(auto, using(crate::proofs::Comparing::comparing))]
fn are_same_entries(xs: &[(u32, i128)], ys: &[(u32, i128)]) -> bool
    ensures { result ≡ true → xs.now ≡ ys.now }
{
    xs == ys
}

/// Whether two linear forms are equal.
#[tactic(auto, using(crate::proofs::Comparing::comparing))]
pub fn is_same_line(f: &Lin, g: &Lin) -> bool
    ensures { result ≡ true → f.now ≡ g.now }
{
    is_same_number(&f.constant(), &g.constant()) && are_same_entries(f.entries(), g.entries())
}

/// Whether two formulas are the same.
#[cycle(same)]
#[tactic(auto, using(crate::proofs::Nodes::nodes))]
pub fn is_same(f: &Form, g: &Form) -> bool
    ensures { result ≡ true → plain f.now ≡ plain g.now }
{
    match (f, g) {
        (Form::True, Form::True) => true,
        (Form::False, Form::False) => true,
        (Form::Row(f), Form::Row(g)) => is_same_line(f, g),
        (Form::Equal(f), Form::Equal(g)) => is_same_line(f, g),
        (Form::BoolVar(v), Form::BoolVar(w)) => *v == *w,
        (Form::At(l), Form::At(m)) => *l == *m,
        (Form::Not(f), Form::Not(g)) => is_same(f, g),
        (Form::And(fs), Form::And(gs)) => are_same(fs, gs),
        (Form::Or(fs), Form::Or(gs)) => are_same(fs, gs),
        _ => false,
    }
}

#[cycle(same)]
fn are_same(fs: &[Form], gs: &[Form]) -> bool
    ensures { result ≡ true → plain_list fs.now ≡ plain_list gs.now }
{
    if fs.len() != gs.len() {
        return false;
    }
    for (place, f) in fs.iter().enumerate() {
        if !is_same(f, &gs[place]) {
            return false;
        }
    }
    true
}

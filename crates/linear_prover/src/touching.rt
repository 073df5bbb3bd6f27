//! Whether a formula has a decided literal.

ghost use Rattle.std.specs.Prelude.{◌≡◌, slice_index_or, None};
ghost use Rattle.st_form.specs.Plain.{plain, plain_list};
ghost use Rattle.st_form.specs.Simple.{tabled};
ghost use Rattle.linear_prover.specs.Touches.{is_there, touches, touches_any};

use st_form::Form;

/// Whether a table has decided a number.
fn is_decided(table: &[Option<bool>], number: u32) -> bool
    ensures { result ≡ is_there (slice_index_or table.now number None) }
{
    match table.get(number as usize) {
        Some(Some(_)) => true,
        Some(None) => false,
        None => false,
    }
}

/// Whether a literal of a formula is decided.
#[cycle(touches)]
#[tactic(auto, using(st_form::proofs::Nodes::nodes))]
pub fn touches(f: &Form, truths: &[Option<bool>], places: &[Option<bool>]) -> bool
    ensures { result ≡ touches (tabled truths.now places.now) (plain f.now) }
{
    match f {
        Form::True => false,
        Form::False => false,
        Form::Row(_) => false,
        Form::Equal(_) => false,
        Form::BoolVar(v) => is_decided(truths, *v),
        Form::At(l) => is_decided(places, *l),
        Form::Not(g) => touches(g, truths, places),
        Form::And(fs) => touches_any(fs, truths, places),
        Form::Or(fs) => touches_any(fs, truths, places),
    }
}

#[cycle(touches)]
fn touches_any(fs: &[Form], truths: &[Option<bool>], places: &[Option<bool>]) -> bool
    ensures { result ≡ touches_any (tabled truths.now places.now) (plain_list fs.now) }
{
    for f in fs {
        if touches(f, truths, places) {
            return true;
        }
    }
    false
}

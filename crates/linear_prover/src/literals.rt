//! The first location and the first boolean variable of formulas, from left to right.

ghost use Rattle.std.specs.Prelude.{◌≡◌};
ghost use Rattle.st_form.specs.Plain.{plain, plain_list};
ghost use Rattle.search_laws.specs.Moves.{first_place, first_place_of, first_truth, first_truth_of};

use st_form::Form;

#[cycle(first_place)]
#[tactic(auto, using(st_form::proofs::Nodes::nodes))]
pub fn first_place(f: &Form) -> Option<u32>
    ensures { result ≡ first_place (plain f.now) }
{
    match f {
        Form::True => None,
        Form::False => None,
        Form::Row(_) => None,
        Form::Equal(_) => None,
        Form::BoolVar(_) => None,
        Form::At(l) => Some(*l),
        Form::Not(g) => first_place(g),
        Form::And(fs) => first_place_of(fs),
        Form::Or(fs) => first_place_of(fs),
    }
}

#[cycle(first_place)]
fn first_place_of(fs: &[Form]) -> Option<u32>
    ensures { result ≡ first_place_of (plain_list fs.now) }
{
    for f in fs {
        if let Some(l) = first_place(f) {
            return Some(l);
        }
    }
    None
}

#[cycle(first_truth)]
#[tactic(auto, using(st_form::proofs::Nodes::nodes))]
pub fn first_truth(f: &Form) -> Option<u32>
    ensures { result ≡ first_truth (plain f.now) }
{
    match f {
        Form::True => None,
        Form::False => None,
        Form::Row(_) => None,
        Form::Equal(_) => None,
        Form::BoolVar(v) => Some(*v),
        Form::At(_) => None,
        Form::Not(g) => first_truth(g),
        Form::And(fs) => first_truth_of(fs),
        Form::Or(fs) => first_truth_of(fs),
    }
}

#[cycle(first_truth)]
fn first_truth_of(fs: &[Form]) -> Option<u32>
    ensures { result ≡ first_truth_of (plain_list fs.now) }
{
    for f in fs {
        if let Some(v) = first_truth(f) {
            return Some(v);
        }
    }
    None
}

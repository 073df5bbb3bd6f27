//! Conjuncts with a simplified formula more: a conjunction gives its parts, what is true gives nothing, and what is false
//! makes the whole false.

ghost use Rattle.std.specs.Prelude.{◌≡◌, IfOk, true, Some};
ghost use Rattle.std.specs.Option.{option_map};
ghost use Rattle.st_form.specs.Plain.{plain, plain_list};
ghost use Rattle.st_form.specs.Simple.{append, parts};
ghost use Rattle.st_form.specs.Formula.{more, none};
ghost use Rattle.linear_prover.specs.Plain.{plain_each, plain_made};

use crate::problems::Conjunct;
use st_form::Form;
use st_memory::Memory;
use std::alloc::Global;
use std::collections::VecDeque;

/// Conjuncts, and behind them these formulas.
fn with_all<'b>(
    alloc: Global,
    out: Vec<Conjunct<'b>>,
    fs: Vec<Form>,
) -> Result<Vec<Conjunct<'b>>, Memory>
    ensures { IfOk result (λ v. plain_each v.items ≡ append (plain_each out.entry.items) (plain_list fs.items)) }
{
    let mut all = out;
    let mut rest = VecDeque::from_vec(fs);
    while let Some(f) = rest.pop_front() {
        all.push(Conjunct::Made(Box::new(alloc, f)?))?;
    }
    Ok(all)
}

fn with_one<'b>(
    alloc: Global,
    out: Vec<Conjunct<'b>>,
    f: Form,
) -> Result<Option<Vec<Conjunct<'b>>>, Memory>
    requires { parts true (plain f) ≡ Some (more (plain f) none) }
    ensures { IfOk result (λ o. plain_made o ≡ option_map (append (plain_each out.entry.items)) (parts true (plain f))) }
{
    let mut all = out;
    all.push(Conjunct::Made(Box::new(alloc, f)?))?;
    Ok(Some(all))
}

/// Conjuncts with one more, or None where it is false.
#[tactic(auto, using(st_form::proofs::Nodes::nodes))]
pub fn with_part<'b>(
    alloc: Global,
    out: Vec<Conjunct<'b>>,
    part: Form,
) -> Result<Option<Vec<Conjunct<'b>>>, Memory>
    ensures { IfOk result (λ o. plain_made o ≡ option_map (append (plain_each out.entry.items)) (parts true (plain part))) }
{
    match part {
        Form::True => Ok(Some(out)),
        Form::False => Ok(None),
        Form::And(fs) => Ok(Some(with_all(alloc, out, fs)?)),
        Form::Row(f) => with_one(alloc, out, Form::Row(f)),
        Form::Equal(f) => with_one(alloc, out, Form::Equal(f)),
        Form::BoolVar(v) => with_one(alloc, out, Form::BoolVar(v)),
        Form::At(l) => with_one(alloc, out, Form::At(l)),
        Form::Not(f) => with_one(alloc, out, Form::Not(f)),
        Form::Or(fs) => with_one(alloc, out, Form::Or(fs)),
    }
}

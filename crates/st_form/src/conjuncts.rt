//! Lists of simplified conjuncts, as a search for certificates and their check keep them.

ghost use Rattle.std.specs.Prelude.{◌≡◌, ◌+◌, ◌<◌, IfOk, true, take, drop, length};
ghost use Rattle.std.specs.Option.{option_map};
ghost use Rattle.st_form.specs.Formula.{more, none};
ghost use Rattle.st_form.specs.Plain.{plain, plain_list, plain_conjuncts};
ghost use Rattle.st_form.specs.Simple.{parts, opened, append};

use crate::formulas::{Form, copy_all};
use crate::parts::take_part;
use st_memory::Memory;
use std::alloc::Global;

/// The conjuncts with one more at their end, or None where that is false.
pub fn joined_conjuncts(alloc: Global, fs: &[Form], f: Form) -> Result<Option<Vec<Form>>, Memory>
    ensures { IfOk result (λ o. plain_conjuncts o ≡ option_map (append (plain_list fs.now)) (parts true (plain f))) }
{
    let mut out = copy_all(alloc, fs)?;
    if !take_part(&mut out, true, f)? {
        return Ok(None);
    }
    Ok(Some(out))
}

fn single(alloc: Global, f: Form) -> Result<Vec<Form>, Memory>
    ensures { IfOk result (λ v. plain_list v.items ≡ more (plain f) none) }
{
    let mut out = Vec::new(alloc);
    out.push(f)?;
    Ok(out)
}

/// The parts of a conjunction, or the formula alone.
#[tactic(auto, using(crate::proofs::Nodes::nodes))]
pub fn opened(alloc: Global, f: &Form) -> Result<Vec<Form>, Memory>
    ensures { IfOk result (λ v. plain_list v.items ≡ opened (plain f.now)) }
{
    match f {
        Form::True => single(alloc, Form::True),
        Form::False => single(alloc, Form::False),
        Form::Row(g) => single(alloc, Form::Row(g.copy(alloc)?)),
        Form::Equal(g) => single(alloc, Form::Equal(g.copy(alloc)?)),
        Form::BoolVar(v) => single(alloc, Form::BoolVar(*v)),
        Form::At(l) => single(alloc, Form::At(*l)),
        Form::Not(g) => single(alloc, Form::Not(Box::new(alloc, g.copy(alloc)?)?)),
        Form::And(gs) => copy_all(alloc, gs),
        Form::Or(gs) => single(alloc, Form::Or(copy_all(alloc, gs)?)),
    }
}

/// The formulas with this one, or its parts, in one's place.
pub fn in_place(alloc: Global, fs: &[Form], place: usize, f: &Form) -> Result<Vec<Form>, Memory>
    requires { place < length fs.now }
    ensures { IfOk result (λ v. plain_list v.items
        ≡ append (plain_list (take place fs.now)) (append (opened (plain f.now)) (plain_list (drop (place + 1) fs.now)))) }
{
    let mut out = copy_all(alloc, &fs[..place])?;
    let mut middle = opened(alloc, f)?;
    let mut behind = copy_all(alloc, &fs[place + 1..])?;
    out.append(&mut middle)?;
    out.append(&mut behind)?;
    Ok(out)
}

//! The parts of a conjunction or a disjunction. A part of the same kind gives its own parts, a truth value that decides nothing
//! is dropped, and one that decides ends the whole.

ghost use Rattle.std.specs.Prelude.{◌≡◌, IfOk, Some};
ghost use Rattle.st_form.specs.Formula.{more, none};
ghost use Rattle.st_form.specs.Plain.{plain, plain_list};
ghost use Rattle.st_form.specs.Simple.{closed, parts, TakesPart};

use crate::formulas::Form;
use crate::literals::constant;
use st_memory::Memory;

/// Takes a part in, and says whether it leaves the whole open.
#[tactic(auto, using(crate::proofs::Simples::taking))]
pub fn take_part(out: &mut Vec<Form>, all: bool, part: Form) -> Result<bool, Memory>
    ensures { IfOk result
        (λ goes. TakesPart goes (plain_list out.old.items) (plain_list out.new.items) (parts all (plain part))) }
{
    match part {
        Form::True => Ok(all),
        Form::False => Ok(!all),
        Form::And(fs) => {
            if all {
                put_parts(out, fs)
            } else {
                put(out, all, Form::And(fs))
            }
        }
        Form::Or(fs) => {
            if all {
                put(out, all, Form::Or(fs))
            } else {
                put_parts(out, fs)
            }
        }
        Form::Row(f) => put(out, all, Form::Row(f)),
        Form::Equal(f) => put(out, all, Form::Equal(f)),
        Form::BoolVar(v) => put(out, all, Form::BoolVar(v)),
        Form::At(l) => put(out, all, Form::At(l)),
        Form::Not(f) => put(out, all, Form::Not(f)),
    }
}

/// Takes a part in as it is.
fn put(out: &mut Vec<Form>, all: bool, part: Form) -> Result<bool, Memory>
    requires { parts all (plain part) ≡ Some (more (plain part) none) }
    ensures { IfOk result
        (λ goes. TakesPart goes (plain_list out.old.items) (plain_list out.new.items) (parts all (plain part))) }
{
    out.push(part)?;
    Ok(true)
}

/// Takes the parts of a part in.
fn put_parts(out: &mut Vec<Form>, mut parts: Vec<Form>) -> Result<bool, Memory>
    ensures { IfOk result
        (λ goes. TakesPart goes (plain_list out.old.items) (plain_list out.new.items) (Some (plain_list parts.items))) }
{
    out.append(&mut parts)?;
    Ok(true)
}

/// The conjunction, or the disjunction, of these parts: one part is itself, and none are `True`, or `False`.
#[tactic(auto, using(crate::proofs::Nodes::nodes))]
pub fn closed(mut fs: Vec<Form>, all: bool) -> Form
    ensures { plain result ≡ closed all (plain_list fs.items) }
{
    if fs.len() < 2 {
        return match fs.pop() {
            Some(only) => only,
            None => constant(all),
        };
    }
    if all { Form::And(fs) } else { Form::Or(fs) }
}

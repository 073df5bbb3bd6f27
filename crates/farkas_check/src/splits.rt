//! Dividing a problem by the disjuncts of one of its disjunctions.

ghost use Rattle.std.specs.Prelude.{◌≡◌, ◌<◌, ◌+◌, IfOk, length, take, drop, None, Some};
ghost use Rattle.st_form.specs.Plain.{plain, plain_list};
ghost use Rattle.st_form.specs.Formula.{none};
ghost use Rattle.st_form.specs.Simple.{parts, append, opened};
ghost use Rattle.farkas_check.specs.Problem.{in_place, split_from, with_conjuncts, disjuncts_of};
ghost use Rattle.std.specs.Option.{option_map};
ghost use Rattle.farkas_check.specs.PlainProblem.{plain_posed};
ghost use Rattle.farkas_check.specs.Limits.{AreFit, IsSettled, AreSettled};
ghost use Rattle.std.specs.Prelude.{IfSome};

use crate::problems::{Posed, with_conjuncts};
use st_form::{Form, in_place};
use st_memory::Memory;
use std::alloc::Global;

pub fn disjuncts(f: &Form) -> Option<&[Form]>
    ensures { option_map (λ gs. plain_list gs.now) result ≡ disjuncts_of (plain f.now) }
{
    match f {
        Form::True => None,
        Form::False => None,
        Form::Row(_) => None,
        Form::Equal(_) => None,
        Form::BoolVar(_) => None,
        Form::At(_) => None,
        Form::Not(_) => None,
        Form::And(_) => None,
        Form::Or(gs) => Some(gs.as_slice()),
    }
}

/// The place of the k-th disjunction, and its disjuncts.
pub fn find_disjunction(fs: &[Form], k: u32) -> Option<(usize, &[Form])>
    requires { AreSettled (plain_list fs.now) }
    ensures found { option_map (λ p. in_place (plain_list (take p.0 fs.now)) (plain_list p.1.now) (plain_list (drop (p.0 + 1) fs.now))) result
        ≡ split_from none k (plain_list fs.now) }
    ensures within { IfSome result (λ p. p.0 < length fs.now) }
    ensures settled { IfSome result (λ p. AreSettled (plain_list p.1.now)) }
{
    let mut left = k;
    for (place, f) in fs.iter().enumerate() {
        if let Some(parts) = disjuncts(f) {
            if left == 0 {
                return Some((place, parts));
            }
            left -= 1;
        }
    }
    None
}

/// The problem with a disjunct in the place of its disjunction.
pub fn split_problem(
    alloc: Global,
    problem: &Posed,
    fs: &[Form],
    place: usize,
    f: &Form,
) -> Result<Posed, Memory>
    requires there { place < length fs.now }
    requires settled { AreSettled (plain_list fs.now) }
    requires part { IsSettled (plain f.now) }
    ensures exact { IfOk result (λ p. plain_posed p ≡ with_conjuncts (plain_posed problem.now)
        (Some (append (plain_list (take place fs.now)) (append (opened (plain f.now)) (plain_list (drop (place + 1) fs.now)))))) }
    ensures fit { IfOk result (λ p. AreFit (plain_posed p).conjuncts) }
{
    let conjuncts = in_place(alloc, fs, place, f)?;
    with_conjuncts(alloc, problem, Some(conjuncts))
}

//! The transitions of one statement by itself, what stands in it left out.

ghost use Rattle.std.specs.Prelude.{◌≡◌, ◌++◌, ◌∷◌, [], drop, OnOk, IfOk, pos, IsTrue};
ghost use Rattle.st_linear.specs.Linear.{is_small};
ghost use Rattle.st_form.specs.Plain.{plain};
ghost use Rattle.st_form.specs.Formula.{negation};
ghost use Rattle.st_program.specs.Plain.{plain_stmts, plain_kind, plain_children};
ghost use Rattle.st_program.specs.Spots.{entry};
ghost use Rattle.st_program.specs.Tree.{cooperate};
ghost use Rattle.observations.specs.declared.Fairness.TheVariants.{Just};
ghost use Rattle.spl_semantics.specs.Control.{starts, ends};
ghost use Rattle.spl_translation.specs.Translation.{moving, passing, whole, own_transitions};
ghost use Rattle.spl_translation.specs.Making.{plain_all, plain_truths};

use crate::composing::path_modes;
use crate::making::{moving, passing, push, push_whole};
use crate::right_sides::{Values, values_of};
use st_form::{Form, Lin, Part, TransName};
use st_memory::Memory;
use st_program::{Child, Kind, Stmt};
use std::alloc::Global;
use transition_system::{Fairness, Transition};

/// The transitions of a statement; `next` is the location behind it.
#[tactic(auto, using(st_program::proofs::Rows::kinds))]
pub fn push_own(
    alloc: Global,
    stmt: &Stmt,
    next: u32,
    out: &mut Vec<Transition>,
) -> Result<(), Memory>
    ensures { OnOk result (plain_all out.new.items
        ≡ plain_all out.old.items ++ own_transitions (plain_kind stmt.now.kind) stmt.now.occ stmt.now.loc next) }
{
    match &stmt.kind {
        Kind::Skip => push_passing(alloc, stmt, Fairness::Just, Form::True, next, out),
        Kind::Critical => push_passing(alloc, stmt, Fairness::Just, Form::True, next, out),
        Kind::Noncritical => push_passing(alloc, stmt, Fairness::Unfair, Form::True, next, out),
        Kind::Assign(targets) => {
            let values = values_of(alloc, targets)?;
            push_giving(alloc, stmt, Fairness::Just, Form::True, values, next, out)
        }
        Kind::Await(test) => {
            let guard = test.copy(alloc)?;
            push_passing(alloc, stmt, Fairness::Just, guard, next, out)
        }
        Kind::Request(var) => {
            let guard = Form::Row(shifted(alloc, *var, -1)?);
            let values = shift(alloc, *var, -1)?;
            let owed = Fairness::Compassionate;
            push_giving(alloc, stmt, owed, guard, values, next, out)
        }
        Kind::Release(var) => {
            let values = shift(alloc, *var, 1)?;
            push_giving(alloc, stmt, Fairness::Just, Form::True, values, next, out)
        }
        Kind::If { test, yes, no } => match no {
            Some(other) => push_test(alloc, stmt, test, yes.loc, other.loc, out),
            None => push_test(alloc, stmt, test, yes.loc, next, out),
        },
        Kind::While { test, body } => push_test(alloc, stmt, test, body.loc, next, out),
        Kind::Block(_) | Kind::Select(_) => Ok(()),
        Kind::Cooperate(children) => push_cooperation(alloc, stmt, children, next, out),
        Kind::Group(pieces) => {
            let modes = path_modes(alloc, pieces, stmt.loc, next)?;
            push_whole(stmt.occ, Fairness::Just, modes, out)
        }
    }
}

/// A transition that gives these values.
fn push_giving(
    alloc: Global,
    stmt: &Stmt,
    fairness: Fairness,
    guard: Form,
    values: Values,
    next: u32,
    out: &mut Vec<Transition>,
) -> Result<(), Memory>
    ensures { OnOk result (plain_all out.new.items ≡ plain_all out.old.items
        ++ whole stmt.now.occ fairness (moving (stmt.now.loc ∷ []) (plain guard) values.numbers.items (plain_truths values.truths.items) (next ∷ []) ∷ [])) }
{
    let from = vec![in alloc; stmt.loc]?;
    let to = vec![in alloc; next]?;
    let only = moving(alloc, from, guard, values, to)?;
    push_whole(stmt.occ, fairness, vec![in alloc; only]?, out)
}

/// A transition that changes no variable.
fn push_passing(
    alloc: Global,
    stmt: &Stmt,
    fairness: Fairness,
    guard: Form,
    next: u32,
    out: &mut Vec<Transition>,
) -> Result<(), Memory>
    ensures { OnOk result (plain_all out.new.items ≡ plain_all out.old.items
        ++ whole stmt.now.occ fairness (passing (stmt.now.loc ∷ []) (plain guard) (next ∷ []) ∷ [])) }
{
    push_giving(alloc, stmt, fairness, guard, Values::none(alloc), next, out)
}

/// A transition with two modes: to `yes` where the test holds, and else to `no`.
#[tactic(auto, using(st_form::proofs::Nodes::nodes))]
fn push_test(
    alloc: Global,
    stmt: &Stmt,
    test: &Form,
    yes: u32,
    no: u32,
    out: &mut Vec<Transition>,
) -> Result<(), Memory>
    ensures { OnOk result (plain_all out.new.items ≡ plain_all out.old.items
        ++ whole stmt.now.occ Just (passing (stmt.now.loc ∷ []) (plain test.now) (yes ∷ []) ∷ passing (stmt.now.loc ∷ []) (negation (plain test.now)) (no ∷ []) ∷ [])) }
{
    let holds = test.copy(alloc)?;
    let fails = Form::Not(Box::new(alloc, test.copy(alloc)?)?);
    let true_mode = passing(
        alloc,
        vec![in alloc; stmt.loc]?,
        holds,
        vec![in alloc; yes]?,
    )?;
    let false_mode = passing(alloc, vec![in alloc; stmt.loc]?, fails, vec![in alloc; no]?)?;
    push_whole(
        stmt.occ,
        Fairness::Just,
        vec![in alloc; true_mode, false_mode]?,
        out,
    )
}

/// The entry and the exit of a cooperation.
fn push_cooperation(
    alloc: Global,
    stmt: &Stmt,
    children: &[Child],
    next: u32,
    out: &mut Vec<Transition>,
) -> Result<(), Memory>
    ensures { OnOk result (plain_all out.new.items ≡ plain_all out.old.items
        ++ own_transitions (cooperate (plain_children children.now)) stmt.now.occ stmt.now.loc next) }
{
    let from = vec![in alloc; stmt.loc]?;
    let enter = passing(alloc, from, Form::True, starts_of(alloc, children)?)?;
    let entry = TransName::Step {
        occ: stmt.occ,
        part: Part::Entry,
    };
    push(entry, Fairness::Just, vec![in alloc; enter]?, out)?;
    let to = vec![in alloc; next]?;
    let leave = passing(alloc, ends_of(alloc, children)?, Form::True, to)?;
    let exit = TransName::Step {
        occ: stmt.occ,
        part: Part::Exit,
    };
    push(exit, Fairness::Just, vec![in alloc; leave]?, out)
}

/// The first locations of children.
pub fn starts_of(alloc: Global, children: &[Child]) -> Result<Vec<u32>, Memory>
    ensures { IfOk result (λ v. v.items ≡ starts (plain_children children.now)) }
{
    let mut out = Vec::with_capacity(alloc, children.len())?;
    for child in children {
        out.push(location_from(&child.body, 0, child.end))?;
    }
    Ok(out)
}

/// The end locations of children.
fn ends_of(alloc: Global, children: &[Child]) -> Result<Vec<u32>, Memory>
    ensures { IfOk result (λ v. v.items ≡ ends (plain_children children.now)) }
{
    let mut out = Vec::with_capacity(alloc, children.len())?;
    for child in children {
        out.push(child.end)?;
    }
    Ok(out)
}

/// Where control is at the beginning of the statements from this one on, which are followed by the location `next`.
pub fn location_from(items: &[Stmt], from: usize, next: u32) -> u32
    ensures { result ≡ entry (plain_stmts (drop from items.now)) next }
{
    if from < items.len() {
        items[from].loc
    } else {
        next
    }
}

/// The variable gets its value and this number.
fn shift(alloc: Global, var: u32, by: i128) -> Result<Values, Memory>
    requires { IsTrue (is_small by) }
    ensures numbers { IfOk result (λ v. v.numbers.items ≡ (var, record { constant = by; entries = (var, pos 1) ∷ [] }) ∷ []) }
    ensures truths { IfOk result (λ v. v.truths.items ≡ []) }
{
    let form = shifted(alloc, var, by)?;
    Ok(Values {
        numbers: vec![in alloc; (var, form)]?,
        truths: Vec::new(alloc),
    })
}

/// The sum of the variable and a number.
fn shifted(alloc: Global, var: u32, by: i128) -> Result<Lin, Memory>
    requires { IsTrue (is_small by) }
    ensures { IfOk result (λ f. f ≡ record { constant = by; entries = (var, pos 1) ∷ [] }) }
{
    match Lin::of_entries(alloc, by, &[(var, 1)])? {
        Some(form) => Ok(form),
        None => unreachable!(),
    }
}

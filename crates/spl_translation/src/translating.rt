//! The translation of a program, by one walk over its text.
//!
//! The location that control reaches behind a statement is handed down: behind the statements of a block stands what is
//! behind the block, behind a loop's body the loop, behind the last statement of a child its end (Manna and Pnueli,
//! *Temporal Verification of Reactive Systems: Safety*, section 0.5).

ghost use Rattle.std.specs.Prelude.{◌≡◌, ◌++◌, ◌∷◌, [], OnOk, IfOk};
ghost use Rattle.spl_translation.specs.Translation.{idling};
ghost use Rattle.st_program.specs.Plain.{plain_stmt, plain_stmts, plain_kind, plain_children};
ghost use Rattle.spl_translation.specs.Translation.{all_transitions};
ghost use Rattle.spl_translation.specs.Making.{plain_all};
ghost use Rattle.spl_translation.specs.Walk.{walk, walk_within, walk_along, walk_among, walk_inside};

use crate::making::{passing, push};
use crate::owning::{location_from, push_own};
use st_form::{Form, TransName};
use st_memory::Memory;
use st_program::{Child, Kind, Stmt};
use std::alloc::Global;
use transition_system::{Fairness, Transition};

/// The transitions of a program: idling, then by occurrence, an entry directly before its exit.
pub fn transitions_of(alloc: Global, processes: &[Child]) -> Result<Vec<Transition>, Memory>
    ensures { IfOk result (λ v. plain_all v.items ≡ all_transitions (plain_children processes.now)) }
{
    let mut out = Vec::new(alloc);
    push_idling(alloc, &mut out)?;
    translate_children(alloc, processes, &mut out)?;
    Ok(out)
}

/// Idling is always enabled, and changes nothing.
fn push_idling(alloc: Global, out: &mut Vec<Transition>) -> Result<(), Memory>
    ensures { OnOk result (plain_all out.new.items ≡ plain_all out.old.items ++ idling ∷ []) }
{
    let stay = passing(alloc, Vec::new(alloc), Form::True, Vec::new(alloc))?;
    push(
        TransName::Idle,
        Fairness::Unfair,
        vec![in alloc; stay]?,
        out,
    )
}

/// The transitions of a statement and of those in it; `next` is the location behind it.
#[cycle(walk)]
fn translate_stmt(
    alloc: Global,
    stmt: &Stmt,
    next: u32,
    out: &mut Vec<Transition>,
) -> Result<(), Memory>
    ensures { OnOk result (plain_all out.new.items ≡ plain_all out.old.items ++ walk (plain_stmt stmt.now) next) }
{
    push_own(alloc, stmt, next, out)?;
    translate_within(alloc, stmt, next, out)
}

/// The transitions of what stands in a statement.
#[cycle(walk)]
#[tactic(auto, using(st_program::proofs::Rows::kinds))]
fn translate_within(
    alloc: Global,
    stmt: &Stmt,
    next: u32,
    out: &mut Vec<Transition>,
) -> Result<(), Memory>
    ensures { OnOk result (plain_all out.new.items
        ≡ plain_all out.old.items ++ walk_within (plain_kind stmt.now.kind) stmt.now.loc next) }
{
    match &stmt.kind {
        Kind::Skip | Kind::Critical | Kind::Noncritical => Ok(()),
        Kind::Assign(_) | Kind::Await(_) | Kind::Request(_) | Kind::Release(_) => Ok(()),
        Kind::If { test: _, yes, no } => {
            translate_stmt(alloc, yes, next, out)?;
            match no {
                Some(other) => translate_stmt(alloc, other, next, out),
                None => Ok(()),
            }
        }
        Kind::While { test: _, body } => translate_stmt(alloc, body, stmt.loc, out),
        Kind::Block(items) => translate_along(alloc, items, next, out),
        Kind::Select(items) => translate_among(alloc, items, next, out),
        Kind::Cooperate(children) => translate_children(alloc, children, out),
        Kind::Group(_) => Ok(()),
    }
}

/// The transitions of statements one after another.
#[cycle(walk)]
fn translate_along(
    alloc: Global,
    items: &[Stmt],
    next: u32,
    out: &mut Vec<Transition>,
) -> Result<(), Memory>
    ensures { OnOk result (plain_all out.new.items ≡ plain_all out.old.items ++ walk_along (plain_stmts items.now) next) }
{
    for i in 0..items.len() {
        let behind = location_from(items, i + 1, next);
        translate_stmt(alloc, &items[i], behind, out)?;
    }
    Ok(())
}

/// The transitions of branches.
#[cycle(walk)]
fn translate_among(
    alloc: Global,
    items: &[Stmt],
    next: u32,
    out: &mut Vec<Transition>,
) -> Result<(), Memory>
    ensures { OnOk result (plain_all out.new.items ≡ plain_all out.old.items ++ walk_among (plain_stmts items.now) next) }
{
    for item in items {
        translate_stmt(alloc, item, next, out)?;
    }
    Ok(())
}

/// The transitions of components side by side.
#[cycle(walk)]
fn translate_children(
    alloc: Global,
    children: &[Child],
    out: &mut Vec<Transition>,
) -> Result<(), Memory>
    ensures { OnOk result (plain_all out.new.items ≡ plain_all out.old.items ++ walk_inside (plain_children children.now)) }
{
    for child in children {
        translate_along(alloc, &child.body, child.end, out)?;
    }
    Ok(())
}

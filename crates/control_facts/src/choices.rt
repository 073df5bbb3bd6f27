//! What a component can be at, read by going along its statements.
//!
//! Statements that begin at one location follow one another by the shape of the text alone: the first of a block, and
//! each branch of a selection. So the insides at a location are what its outermost statement can begin with, and no
//! table of locations is needed. Each statement is looked at twice at most.

ghost use Rattle.std.specs.Prelude.{◌≡◌, ◌++◌, OnOk, IfOk};
ghost use Rattle.st_program.specs.Plain.{plain_stmt, plain_stmts, plain_kind};
ghost use Rattle.control_facts.specs.Walk.{heads, heads_among, choices, further, choices_along, choices_among, choices_of};

use control_states::Alternative;
use st_memory::Memory;
use st_program::{Kind, Stmt};
use std::alloc::Global;

/// What a component with these statements and this end can be at.
pub fn choices_of(alloc: Global, body: &[Stmt], end: u32) -> Result<Vec<Alternative>, Memory>
    ensures { IfOk result (λ v. v.items ≡ choices_of (plain_stmts body.now) end) }
{
    let mut out = Vec::new(alloc);
    push_along(body, true, &mut out)?;
    out.push(Alternative::Location(end))?;
    Ok(out)
}

/// The choices in a statement; `fresh` says whether it has a location of its own.
#[cycle(choices)]
fn push_choices(stmt: &Stmt, fresh: bool, out: &mut Vec<Alternative>) -> Result<(), Memory>
    ensures { OnOk result (out.new.items ≡ out.old.items ++ choices fresh (plain_stmt stmt.now)) }
{
    if fresh {
        out.push(Alternative::Location(stmt.loc))?;
        push_heads(stmt, out)?;
        push_further(&stmt.kind, out)
    } else {
        push_further(&stmt.kind, out)
    }
}

/// The choices in a statement at other locations than its own.
#[cycle(choices)]
#[tactic(auto, using(st_program::proofs::Rows::kinds))]
fn push_further(kind: &Kind, out: &mut Vec<Alternative>) -> Result<(), Memory>
    ensures { OnOk result (out.new.items ≡ out.old.items ++ further (plain_kind kind.now)) }
{
    match kind {
        Kind::Skip | Kind::Critical | Kind::Noncritical => Ok(()),
        Kind::Assign(_) | Kind::Await(_) | Kind::Request(_) | Kind::Release(_) => Ok(()),
        Kind::If { test: _, yes, no } => {
            push_choices(yes, true, out)?;
            match no {
                Some(other) => push_choices(other, true, out),
                None => Ok(()),
            }
        }
        Kind::While { test: _, body } => push_choices(body, true, out),
        Kind::Block(items) => push_along(items, false, out),
        Kind::Select(items) => push_among(items, out),
        Kind::Cooperate(_) => Ok(()),
        Kind::Group(_) => Ok(()),
    }
}

/// The choices of statements one after another; `fresh` says whether the first has a location of its own.
#[cycle(choices)]
fn push_along(items: &[Stmt], fresh: bool, out: &mut Vec<Alternative>) -> Result<(), Memory>
    ensures { OnOk result (out.new.items ≡ out.old.items ++ choices_along fresh (plain_stmts items.now)) }
{
    let mut own = fresh;
    for item in items {
        push_choices(item, own, out)?;
        own = true;
    }
    Ok(())
}

/// The choices of branches, which have the selection's location.
#[cycle(choices)]
fn push_among(items: &[Stmt], out: &mut Vec<Alternative>) -> Result<(), Memory>
    ensures { OnOk result (out.new.items ≡ out.old.items ++ choices_among (plain_stmts items.now)) }
{
    for item in items {
        push_choices(item, false, out)?;
    }
    Ok(())
}

/// The insides of the cooperations that a statement can begin with.
#[cycle(heads)]
#[tactic(auto, using(st_program::proofs::Rows::kinds))]
fn push_heads(stmt: &Stmt, out: &mut Vec<Alternative>) -> Result<(), Memory>
    ensures { OnOk result (out.new.items ≡ out.old.items ++ heads (plain_stmt stmt.now)) }
{
    match &stmt.kind {
        Kind::Skip | Kind::Critical | Kind::Noncritical => Ok(()),
        Kind::Assign(_) | Kind::Await(_) | Kind::Request(_) | Kind::Release(_) => Ok(()),
        Kind::If {
            test: _,
            yes: _,
            no: _,
        } => Ok(()),
        Kind::While { test: _, body: _ } => Ok(()),
        Kind::Block(items) => match items.first() {
            Some(first) => push_heads(first, out),
            None => Ok(()),
        },
        Kind::Select(items) => push_heads_among(items, out),
        Kind::Cooperate(_) => {
            out.push(Alternative::Inside(stmt.occ))?;
            Ok(())
        }
        Kind::Group(_) => Ok(()),
    }
}

#[cycle(heads)]
fn push_heads_among(items: &[Stmt], out: &mut Vec<Alternative>) -> Result<(), Memory>
    ensures { OnOk result (out.new.items ≡ out.old.items ++ heads_among (plain_stmts items.now)) }
{
    for item in items {
        push_heads(item, out)?;
    }
    Ok(())
}

//! The components of a program, by one walk over its text.
//!
//! A component is put down when its text begins, so that it comes before the children in it, and its number is how many
//! stand before it. Each location is owned by the component that the walk is in where it meets the location; the first
//! statement of a block and the branches of a selection take over a location that was met before.

ghost use Rattle.std.specs.Prelude.{◌≡◌, ◌<◌, All, OnOk, IfOk, length};
ghost use Rattle.st_program.specs.Plain.{plain_stmt, plain_stmts, plain_kind, plain_child, plain_children};
ghost use Rattle.control_facts.specs.Alternatives.{control_of};
ghost use Rattle.control_facts.specs.Walk.{walk, walk_within, walk_along, walk_among, walk_inside, walk_component, facts_of};

use crate::choices::choices_of;
use control_states::{Component, Components};
use st_memory::Memory;
use st_program::{Child, Kind, Program, Stmt};
use std::alloc::Global;

/// The components of a program in text order, and of each location the component whose own it is, by its number.
pub fn components(alloc: Global, program: &Program) -> Result<Components, Memory>
    ensures facts { IfOk result (λ facts. facts ≡ control_of (plain_children program.now.processes)) }
    ensures each { IfOk result (λ facts. length facts.owners ≡ program.now.locations) }
    ensures named { IfOk result (λ facts. All (λ c. c < length facts.components) facts.owners) }
{
    let mut parts = Vec::new(alloc);
    let mut owners = Vec::with_capacity(alloc, program.locations as usize)?;
    walk_children(alloc, &program.processes, None, &mut parts, &mut owners)?;
    Ok(Components::new(parts, owners))
}

/// What stands in a statement of a component; `fresh` says whether it has a location of its own.
#[cycle(walk)]
fn walk_stmt(
    alloc: Global,
    stmt: &Stmt,
    fresh: bool,
    component: u32,
    parts: &mut Vec<Component>,
    owners: &mut Vec<u32>,
) -> Result<(), Memory>
    ensures { OnOk result (facts_of parts.new.items owners.new.items
        ≡ walk fresh (plain_stmt stmt.now) component (facts_of parts.old.items owners.old.items)) }
{
    if fresh {
        owners.push(component)?;
        walk_within(alloc, stmt, component, parts, owners)
    } else {
        walk_within(alloc, stmt, component, parts, owners)
    }
}

/// What stands in a statement behind its own location.
#[cycle(walk)]
#[tactic(auto, using(st_program::proofs::Rows::kinds))]
fn walk_within(
    alloc: Global,
    stmt: &Stmt,
    component: u32,
    parts: &mut Vec<Component>,
    owners: &mut Vec<u32>,
) -> Result<(), Memory>
    ensures { OnOk result (facts_of parts.new.items owners.new.items
        ≡ walk_within (plain_kind stmt.now.kind) stmt.now.occ component (facts_of parts.old.items owners.old.items)) }
{
    match &stmt.kind {
        Kind::Skip | Kind::Critical | Kind::Noncritical => Ok(()),
        Kind::Assign(_) | Kind::Await(_) | Kind::Request(_) | Kind::Release(_) => Ok(()),
        Kind::If { test: _, yes, no } => {
            walk_stmt(alloc, yes, true, component, parts, owners)?;
            match no {
                Some(other) => walk_stmt(alloc, other, true, component, parts, owners),
                None => Ok(()),
            }
        }
        Kind::While { test: _, body } => walk_stmt(alloc, body, true, component, parts, owners),
        Kind::Block(items) => walk_along(alloc, items, false, component, parts, owners),
        Kind::Select(items) => walk_among(alloc, items, component, parts, owners),
        Kind::Cooperate(children) => {
            walk_children(alloc, children, Some((component, stmt.occ)), parts, owners)
        }
        Kind::Group(_) => Ok(()),
    }
}

/// Statements one after another; `fresh` says whether the first has a location of its own.
#[cycle(walk)]
fn walk_along(
    alloc: Global,
    items: &[Stmt],
    fresh: bool,
    component: u32,
    parts: &mut Vec<Component>,
    owners: &mut Vec<u32>,
) -> Result<(), Memory>
    ensures { OnOk result (facts_of parts.new.items owners.new.items
        ≡ walk_along fresh (plain_stmts items.now) component (facts_of parts.old.items owners.old.items)) }
{
    let mut own = fresh;
    for item in items {
        walk_stmt(alloc, item, own, component, parts, owners)?;
        own = true;
    }
    Ok(())
}

/// Branches, which have the selection's location.
#[cycle(walk)]
fn walk_among(
    alloc: Global,
    items: &[Stmt],
    component: u32,
    parts: &mut Vec<Component>,
    owners: &mut Vec<u32>,
) -> Result<(), Memory>
    ensures { OnOk result (facts_of parts.new.items owners.new.items
        ≡ walk_among (plain_stmts items.now) component (facts_of parts.old.items owners.old.items)) }
{
    for item in items {
        walk_stmt(alloc, item, false, component, parts, owners)?;
    }
    Ok(())
}

/// Components side by side: what each can be at, what stands in it, and its end.
#[cycle(walk)]
fn walk_children(
    alloc: Global,
    children: &[Child],
    around: Option<(u32, u32)>,
    parts: &mut Vec<Component>,
    owners: &mut Vec<u32>,
) -> Result<(), Memory>
    ensures { OnOk result (facts_of parts.new.items owners.new.items
        ≡ walk_inside (plain_children children.now) around (facts_of parts.old.items owners.old.items)) }
{
    for child in children {
        walk_child(alloc, child, around, parts, owners)?;
    }
    Ok(())
}

/// A component. Its number has 32 bits: a program has fewer components than locations, so there is always room for it.
#[cycle(walk)]
fn walk_child(
    alloc: Global,
    child: &Child,
    around: Option<(u32, u32)>,
    parts: &mut Vec<Component>,
    owners: &mut Vec<u32>,
) -> Result<(), Memory>
    ensures { OnOk result (facts_of parts.new.items owners.new.items
        ≡ walk_component (plain_child child.now) around (facts_of parts.old.items owners.old.items)) }
{
    let Ok(component) = u32::try_from(parts.len()) else {
        return Err(Memory);
    };
    let choices = choices_of(alloc, &child.body, child.end)?;
    parts.push(Component::new(choices, around))?;
    walk_along(alloc, &child.body, true, component, parts, owners)?;
    owners.push(component)?;
    Ok(())
}

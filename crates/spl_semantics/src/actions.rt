//! What a statement can do first.

ghost use Rattle.std.specs.Prelude.{◌≡◌, ◌<◌, ◌+◌, ◌^◌, IfOk, length};
ghost use Rattle.st_program.specs.Plain.{plain_stmt, plain_stmts, plain_kind};
ghost use Rattle.st_program.specs.Spots.{bodies, bodies_inside, bodies_in};
ghost use Rattle.spl_semantics.specs.Answers.{Answers};
ghost use Rattle.spl_semantics.specs.Data.{store_of, types, FirstMeets, OwnMeets, AlongMeets, AmongMeet};
ghost use Rattle.spl_semantics.specs.Limits.{wide_first, wide_own, wide_along, wide_among};
ghost use Rattle.spl_semantics.specs.Plain.{plain_acts, act_stores, AllOfTypes};
ghost use Rattle.spl_semantics.specs.Steps as steps;

use crate::acts::Act;
use crate::components::count_in;
use crate::faults::MoveFault;
use crate::simple::{assign_acts, await_acts, enter, release_acts, request_acts, stay, test_acts};
use crate::starts::begin;
use crate::surgery::{again, join_all};
use crate::walks::group_acts;
use st_program::{Datum, Kind, Residual, Stmt};
use std::alloc::Global;

/// What a statement can do first. `component` is the number of the first component in it.
#[cycle(first)]
pub fn first_acts(
    alloc: Global,
    stmt: &Stmt,
    component: u32,
    store: &[Datum],
) -> Result<Vec<Act>, MoveFault>
    ensures steps { component + length (bodies (plain_stmt stmt.now)) < 2 ^ 32 → FirstMeets (types store.now) (plain_stmt stmt.now)
        → Answers (λ v. plain_acts v.items) result
        (wide_first (plain_stmt stmt.now) (store_of store.now))
        (steps.first_acts (plain_stmt stmt.now) component (store_of store.now)) }
    ensures stores { FirstMeets (types store.now) (plain_stmt stmt.now)
        → IfOk result (λ v. AllOfTypes (types store.now) (act_stores v.items)) }
{
    own_acts(alloc, &stmt.kind, stmt.occ, component, store)
}

#[cycle(first)]
#[tactic(auto, using(st_program::proofs::Rows::kinds))]
fn own_acts(
    alloc: Global,
    kind: &Kind,
    occ: u32,
    component: u32,
    store: &[Datum],
) -> Result<Vec<Act>, MoveFault>
    ensures steps { component + length (bodies_inside (plain_kind kind.now)) < 2 ^ 32 → OwnMeets (types store.now) (plain_kind kind.now)
        → Answers (λ v. plain_acts v.items) result
        (wide_own (plain_kind kind.now) (store_of store.now))
        (steps.own_acts (plain_kind kind.now) occ component (store_of store.now)) }
    ensures stores { OwnMeets (types store.now) (plain_kind kind.now)
        → IfOk result (λ v. AllOfTypes (types store.now) (act_stores v.items)) }
{
    match kind {
        Kind::Skip | Kind::Critical | Kind::Noncritical => {
            Ok(stay(alloc, occ, 1, Residual::Done, store)?)
        }
        Kind::Assign(targets) => assign_acts(alloc, targets, occ, store),
        Kind::Await(test) => await_acts(alloc, test, occ, store),
        Kind::Request(variable) => request_acts(alloc, *variable, occ, store),
        Kind::Release(variable) => release_acts(alloc, *variable, occ, store),
        Kind::If { test, yes, no } => {
            let behind = match no {
                Some(other) => Residual::Run(other.occ),
                None => Residual::Done,
            };
            test_acts(alloc, test, occ, Residual::Run(yes.occ), behind, store)
        }
        Kind::While { test, body } => {
            let body = again(alloc, Residual::Run(body.occ), occ)?;
            test_acts(alloc, test, occ, body, Residual::Done, store)
        }
        Kind::Block(items) => along_acts(alloc, items, occ, component, store),
        Kind::Select(items) => among_acts(alloc, items, component, store),
        Kind::Cooperate(children) => {
            let children = begin(alloc, children, component)?;
            Ok(enter(alloc, occ, children, store)?)
        }
        Kind::Group(pieces) => group_acts(alloc, pieces, occ, store),
    }
}

/// What a block can do first.
#[cycle(first)]
fn along_acts(
    alloc: Global,
    items: &[Stmt],
    occ: u32,
    component: u32,
    store: &[Datum],
) -> Result<Vec<Act>, MoveFault>
    ensures steps { component + length (bodies_in (plain_stmts items.now)) < 2 ^ 32 → AlongMeets (types store.now) (plain_stmts items.now)
        → Answers (λ v. plain_acts v.items) result
        (wide_along (plain_stmts items.now) (store_of store.now))
        (steps.acts_along (plain_stmts items.now) occ component (store_of store.now)) }
    ensures stores { AlongMeets (types store.now) (plain_stmts items.now)
        → IfOk result (λ v. AllOfTypes (types store.now) (act_stores v.items)) }
{
    if items.is_empty() {
        return Ok(Vec::new(alloc));
    }
    let inner = first_acts(alloc, &items[0], component, store)?;
    Ok(join_all(alloc, items, inner, occ, 1)?)
}

/// What a selection can do first: what its branches can.
#[cycle(first)]
fn among_acts(
    alloc: Global,
    items: &[Stmt],
    component: u32,
    store: &[Datum],
) -> Result<Vec<Act>, MoveFault>
    ensures steps { component + length (bodies_in (plain_stmts items.now)) < 2 ^ 32 → AmongMeet (types store.now) (plain_stmts items.now)
        → Answers (λ v. plain_acts v.items) result
        (wide_among (plain_stmts items.now) (store_of store.now))
        (steps.acts_among (plain_stmts items.now) component (store_of store.now)) }
    ensures stores { AmongMeet (types store.now) (plain_stmts items.now)
        → IfOk result (λ v. AllOfTypes (types store.now) (act_stores v.items)) }
{
    let mut acts = Vec::new(alloc);
    let mut component = component;
    for item in items {
        let mut branch = first_acts(alloc, item, component, store)?;
        acts.append(&mut branch)?;
        component = component.saturating_add(count_in(item));
    }
    Ok(acts)
}

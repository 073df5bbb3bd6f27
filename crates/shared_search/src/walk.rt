//! The walk over lists in contexts, depth first, until one fails. A list whose tree is remembered isn't walked again.

ghost use Rattle.std.specs.Prelude.{◌≡◌, IfOk, IfSome, All, map};
ghost use Rattle.farkas_check.specs.PlainProblem.{setting};
ghost use Rattle.form_table.specs.Contents.{formulas_of};
ghost use Rattle.tree_table.specs.Nodes.{trees_in};
ghost use Rattle.shared_search.specs.Books.{AreNumbered, Remembers, GrowsTo};
ghost use Rattle.shared_search.specs.Lists.{HasTree, HaveTrees, IsChild, IsKey, child_of, key_of};

use crate::decisions::Decisions;
use crate::lists::{Child, Key};
use crate::memo::{Memo, is_full, remember, remembered};
use crate::moves::{Move, move_at};
use control_states::Components;
use st_form::Variable;
use st_memory::Memory;
use std::alloc::Global;

/// The tree of a list, with so many levels left, if there is one.
#[cycle(walk)]
pub fn walk(
    alloc: Global,
    memo: &mut Memo,
    decisions: &Decisions,
    components: &Components,
    variables: &[Variable],
    child: Child,
    levels: u32,
) -> Result<Option<u32>, Memory>
    requires child { IsChild (formulas_of memo.old.table) memo.old.contexts.kept.items child }
    requires numbered { AreNumbered (setting components.now variables.now) memo.old.table.decisions decisions.now }
    requires remembers { Remembers (setting components.now variables.now) memo.old }
    ensures grows { GrowsTo memo.old memo.new }
    ensures remembers { Remembers (setting components.now variables.now) memo.new }
    ensures found { IfOk result (λ o. IfSome o (λ t.
        HasTree (setting components.now variables.now) (trees_in memo.new.trees) t (child_of (formulas_of memo.old.table) memo.old.contexts.kept.items child))) }
{
    match child.list {
        None => Ok(Some(memo.trees.absurd())),
        Some(list) => {
            let key = Key {
                context: child.context,
                list,
            };
            walk_list(alloc, memo, decisions, components, variables, key, levels)
        }
    }
}

/// The same of a list that isn't false, as it is remembered, or searched.
#[cycle(walk)]
fn walk_list(
    alloc: Global,
    memo: &mut Memo,
    decisions: &Decisions,
    components: &Components,
    variables: &[Variable],
    key: Key,
    levels: u32,
) -> Result<Option<u32>, Memory>
    requires key { IsKey (formulas_of memo.old.table) memo.old.contexts.kept.items key }
    requires numbered { AreNumbered (setting components.now variables.now) memo.old.table.decisions decisions.now }
    requires remembers { Remembers (setting components.now variables.now) memo.old }
    ensures grows { GrowsTo memo.old memo.new }
    ensures remembers { Remembers (setting components.now variables.now) memo.new }
    ensures found { IfOk result (λ o. IfSome o (λ t.
        HasTree (setting components.now variables.now) (trees_in memo.new.trees) t (key_of (formulas_of memo.old.table) memo.old.contexts.kept.items key))) }
{
    if let Some(tree) = remembered(&memo.found, key) {
        return Ok(Some(tree));
    }
    if levels == 0 {
        return Ok(None);
    }
    if is_full(memo) {
        return Ok(None);
    }
    memo.left -= 1;
    match search(
        alloc,
        memo,
        decisions,
        components,
        variables,
        key,
        levels - 1,
    )? {
        None => Ok(None),
        Some(tree) => {
            remember(alloc, &mut memo.found, key, tree)?;
            Ok(Some(tree))
        }
    }
}

/// The same, searched.
#[cycle(walk)]
fn search(
    alloc: Global,
    memo: &mut Memo,
    decisions: &Decisions,
    components: &Components,
    variables: &[Variable],
    key: Key,
    levels: u32,
) -> Result<Option<u32>, Memory>
    requires key { IsKey (formulas_of memo.old.table) memo.old.contexts.kept.items key }
    requires numbered { AreNumbered (setting components.now variables.now) memo.old.table.decisions decisions.now }
    requires remembers { Remembers (setting components.now variables.now) memo.old }
    ensures grows { GrowsTo memo.old memo.new }
    ensures remembers { Remembers (setting components.now variables.now) memo.new }
    ensures found { IfOk result (λ o. IfSome o (λ t.
        HasTree (setting components.now variables.now) (trees_in memo.new.trees) t (key_of (formulas_of memo.old.table) memo.old.contexts.kept.items key))) }
{
    match move_at(
        alloc,
        &mut memo.table,
        &mut memo.contexts,
        decisions,
        components,
        variables,
        key,
    )? {
        Move::Fails => Ok(None),
        Move::Closes(picks) => Ok(Some(memo.trees.linear(picks.as_slice())?)),
        Move::Divides(step, children) => {
            match walk_all(
                alloc,
                memo,
                decisions,
                components,
                variables,
                children.as_slice(),
                levels,
            )? {
                None => Ok(None),
                Some(parts) => Ok(Some(memo.trees.branch(step, parts.as_slice())?)),
            }
        }
    }
}

/// The trees of lists, if each has one.
#[cycle(walk)]
fn walk_all(
    alloc: Global,
    memo: &mut Memo,
    decisions: &Decisions,
    components: &Components,
    variables: &[Variable],
    children: &[Child],
    levels: u32,
) -> Result<Option<Vec<u32>>, Memory>
    requires children { All (IsChild (formulas_of memo.old.table) memo.old.contexts.kept.items) children.now }
    requires numbered { AreNumbered (setting components.now variables.now) memo.old.table.decisions decisions.now }
    requires remembers { Remembers (setting components.now variables.now) memo.old }
    ensures grows { GrowsTo memo.old memo.new }
    ensures remembers { Remembers (setting components.now variables.now) memo.new }
    ensures found { IfOk result (λ o. IfSome o (λ v.
        HaveTrees (setting components.now variables.now) (trees_in memo.new.trees) v.items (map (child_of (formulas_of memo.old.table) memo.old.contexts.kept.items) children.now))) }
{
    let mut parts = Vec::with_capacity(alloc, children.len())?;
    for child in children {
        match walk(
            alloc, memo, decisions, components, variables, *child, levels,
        )? {
            None => return Ok(None),
            Some(tree) => parts.push(tree)?,
        }
    }
    Ok(Some(parts))
}

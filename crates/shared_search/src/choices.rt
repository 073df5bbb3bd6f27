//! The lists that the decision of a component or a variable divides a list into. Where a component has others inside, each of its
//! lists is in a context of its own.

ghost use Rattle.std.specs.Prelude.{◌≡◌, ◌<◌, IfOk, IfSome, List, Some, length, map};
ghost use Rattle.control_states.specs.Control.{component_at};
ghost use Rattle.st_form.specs.Formula.{Formula, Formulas};
ghost use Rattle.farkas_check.specs.PlainProblem.{setting};
ghost use Rattle.form_table.specs.Contents.{Grows, formulas_of};
ghost use Rattle.form_table.specs.Lists.{IsList, conjuncts_of};
ghost use Rattle.sharing_laws.specs.Lists.{by_variable, case_lists};
ghost use Rattle.sharing_laws.specs.Contexts.{by_component_in, case_lists_in, in_context, moved_in};
ghost use Rattle.shared_search.specs.Books.{AreNumbered};
ghost use Rattle.shared_search.specs.Contexts.{AreInside, ContextTable, Keeps, context_at};
ghost use Rattle.shared_search.specs.Lists.{AreChildren, IsKey};
ghost use Rattle.shared_search.specs.Moves.{IsMove};

use crate::contexts::{Contexts, context_at, entered_each};
use crate::decisions::Decisions;
use crate::lists::{Child, Key, moved, under_each};
use crate::moves::Move;
use control_states::Components;
use farkas_check::decisions::{has_truth, may_case};
use form_table::Table;
use st_form::Variable;
use st_memory::Memory;
use std::alloc::Global;
use tree_table::Step;

/// The lists for each alternative of a component in their contexts, or none where there are too many contexts. The context stays
/// where the component has no others inside.
fn in_contexts(
    alloc: Global,
    contexts: &mut Contexts,
    insides: &[bool],
    components: &Components,
    context: u32,
    component: u32,
    lists: Vec<Child>,
) -> Result<Option<Vec<Child>>, Memory>
    requires there { context < length contexts.old.kept.items }
    requires insides { AreInside components.now insides.now }
    ensures keeps { Keeps contexts.old.kept.items contexts.new.kept.items }
    ensures made { (ts : List Formula) (fs : Formulas)
        → AreChildren ts contexts.old.kept.items lists.items (map (in_context (context_at contexts.old.kept.items context)) (case_lists components.now fs component (component_at components.now.components component).alternatives))
        → IfOk result (λ o. IfSome o (λ v. AreChildren ts contexts.new.kept.items v.items
        (case_lists_in components.now (context_at contexts.old.kept.items context) fs component (component_at components.now.components component).alternatives))) }
{
    let choices = components.alternatives(component);
    match insides.get(component as usize) {
        None => Ok(None),
        Some(inside) => {
            if !*inside {
                return Ok(Some(lists));
            }
            match entered_each(alloc, contexts, context, component, choices)? {
                None => Ok(None),
                Some(numbers) => Ok(Some(moved(alloc, numbers.as_slice(), lists.as_slice())?)),
            }
        }
    }
}

/// A component is decided, if it may be.
pub fn by_component(
    alloc: Global,
    table: &mut Table,
    contexts: &mut Contexts,
    decisions: &Decisions,
    components: &Components,
    variables: &[Variable],
    key: Key,
    component: u32,
) -> Result<Move, Memory>
    requires key { IsKey (formulas_of table.old) contexts.old.kept.items key }
    requires numbered { AreNumbered (setting components.now variables.now) table.old.decisions decisions.now }
    ensures grows { Grows table.old table.new }
    ensures keeps { Keeps contexts.old.kept.items contexts.new.kept.items }
    ensures made { IfOk result (λ m. IsMove (formulas_of table.new) contexts.new.kept.items m
        (by_component_in (setting components.now variables.now) (context_at contexts.old.kept.items key.context) (conjuncts_of (formulas_of table.old) key.list) (Some component))) }
{
    let context = context_at(contexts.kept.as_slice(), key.context);
    if !may_case(components, context, component) {
        return Ok(Move::Fails);
    }
    match decisions.cases.get(component as usize) {
        None => Ok(Move::Fails),
        Some(numbers) => {
            let lists = under_each(alloc, table, key, numbers.as_slice())?;
            let insides = decisions.insides.as_slice();
            match in_contexts(
                alloc,
                contexts,
                insides,
                components,
                key.context,
                component,
                lists,
            )? {
                None => Ok(Move::Fails),
                Some(children) => Ok(Move::Divides(Step::Case(component), children)),
            }
        }
    }
}

/// A variable is decided, if it is boolean.
pub fn by_variable(
    alloc: Global,
    table: &mut Table,
    decisions: &Decisions,
    components: &Components,
    variables: &[Variable],
    key: Key,
    var: u32,
) -> Result<Move, Memory>
    requires list { IsList (formulas_of table.old) key.list }
    requires numbered { AreNumbered (setting components.now variables.now) table.old.decisions decisions.now }
    ensures grows { Grows table.old table.new }
    ensures made { (cs : ContextTable) → key.context < length cs → IfOk result (λ m. IsMove (formulas_of table.new) cs m
        (moved_in (context_at cs key.context) (by_variable (setting components.now variables.now) (conjuncts_of (formulas_of table.old) key.list) (Some var)))) }
{
    if !has_truth(variables, var) {
        return Ok(Move::Fails);
    }
    match decisions.truths.get(var as usize) {
        None => Ok(Move::Fails),
        Some(numbers) => {
            let lists = under_each(alloc, table, key, numbers.as_slice())?;
            Ok(Move::Divides(Step::Truth(var), lists))
        }
    }
}

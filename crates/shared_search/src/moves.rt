//! What is done at a list of conjuncts in a context. Where a conjunct has a location, the first one decides: the outermost
//! component that the context leaves undecided among its component and those around it. Else the first boolean variable is decided.
//! Else the first disjunction is split. Else the lines are eliminated.

ghost use Rattle.std.specs.Prelude.{◌≡◌, ◌<◌, IfOk, length, None};
ghost use Rattle.st_form.specs.Formula.{none};
ghost use Rattle.farkas_check.specs.Problem.{lines_of, split_from};
ghost use Rattle.farkas_check.specs.PlainProblem.{setting};
ghost use Rattle.elimination_laws.specs.Stages.{ending};
ghost use Rattle.form_table.specs.Contents.{Grows, formulas_of};
ghost use Rattle.form_table.specs.Lists.{IsList, conjuncts_of};
ghost use Rattle.sharing_laws.specs.Lists.{by_variable, by_disjunction, by_ending};
ghost use Rattle.sharing_laws.specs.Contexts.{by_component_in, by_place_in, context_move, moved_in};
ghost use Rattle.shared_search.specs.Contexts.{ContextTable, Keeps, context_at};
ghost use Rattle.shared_search.specs.Lists.{IsKey, key_of};
ghost use Rattle.shared_search.specs.Books.{AreNumbered};
ghost use Rattle.shared_search.specs.Moves.{IsLeaf, IsMove};

use crate::choices::{by_component, by_variable};
use crate::contexts::{Contexts, context_at};
use crate::decisions::Decisions;
use crate::lines::refuted;
use crate::lists::{Child, Key, none_false};
use crate::next_component::component_for;
use control_states::Components;
use form_table::Table;
use st_form::Variable;
use st_memory::Memory;
use std::alloc::Global;
use tree_table::Step;

/// What is done at a list.
#[derive(Drop)]
pub enum Move {
    /// These lines, each with a multiplier, sum to a negative constant.
    Closes(Vec<(u32, i64)>),
    /// Each of these lists is searched.
    Divides(Step, Vec<Child>),
    Fails,
}

/// The lines are eliminated.
fn by_lines(
    alloc: Global,
    table: &Table,
    components: &Components,
    variables: &[Variable],
    list: u32,
) -> Result<Move, Memory>
    requires list { IsList (formulas_of table.now) list }
    ensures { IfOk result (λ m. IsLeaf m
        (by_disjunction (setting components.now variables.now) (conjuncts_of (formulas_of table.now) list) None)) }
{
    let lines = table.lines(alloc, list)?;
    let Ok(count) = u32::try_from(variables.len()) else {
        return Ok(Move::Fails);
    };
    match refuted(alloc, lines.as_slice(), count)? {
        Some(picks) => Ok(Move::Closes(picks)),
        None => Ok(Move::Fails),
    }
}

/// The first disjunction is split, if there is one.
fn by_disjunction(
    alloc: Global,
    table: &mut Table,
    components: &Components,
    variables: &[Variable],
    key: Key,
) -> Result<Move, Memory>
    requires list { IsList (formulas_of table.old) key.list }
    ensures grows { Grows table.old table.new }
    ensures made { (cs : ContextTable) → key.context < length cs → IfOk result (λ m. IsMove (formulas_of table.new) cs m
        (moved_in (context_at cs key.context) (by_disjunction (setting components.now variables.now) (conjuncts_of (formulas_of table.old) key.list)
        (split_from none 0 (conjuncts_of (formulas_of table.old) key.list))))) }
{
    match table.split(alloc, key.list, 0)? {
        Some(lists) => Ok(Move::Divides(
            Step::Split(0),
            none_false(alloc, key.context, lists.as_slice())?,
        )),
        None => by_lines(alloc, table, components, variables, key.list),
    }
}

/// What is done at a list in a context.
pub fn move_at(
    alloc: Global,
    table: &mut Table,
    contexts: &mut Contexts,
    decisions: &Decisions,
    components: &Components,
    variables: &[Variable],
    key: Key,
) -> Result<Move, Memory>
    requires key { IsKey (formulas_of table.old) contexts.old.kept.items key }
    requires numbered { AreNumbered (setting components.now variables.now) table.old.decisions decisions.now }
    ensures grows { Grows table.old table.new }
    ensures keeps { Keeps contexts.old.kept.items contexts.new.kept.items }
    ensures made { IfOk result (λ m. IsMove (formulas_of table.new) contexts.new.kept.items m
        (context_move (setting components.now variables.now) (key_of (formulas_of table.old) contexts.old.kept.items key))) }
{
    if let Some(location) = table.first_place(key.list) {
        let context = context_at(contexts.kept.as_slice(), key.context);
        return match component_for(components, context, location) {
            None => Ok(Move::Fails),
            Some(c) => by_component(
                alloc, table, contexts, decisions, components, variables, key, c,
            ),
        };
    }
    if let Some(var) = table.first_truth(key.list) {
        return by_variable(alloc, table, decisions, components, variables, key, var);
    }
    by_disjunction(alloc, table, components, variables, key)
}

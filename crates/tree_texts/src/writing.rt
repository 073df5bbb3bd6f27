//! The text of certificates that the search over lists finds.

ghost use Rattle.std.specs.Prelude.{◌<◌, length};
ghost use Rattle.farkas_check.specs.PlainProblem.{setting};
ghost use Rattle.search_laws.specs.Searchable.{AreSearchable};
ghost use Rattle.shared_search.specs.Books.{Knows};

use crate::entering::enter;
use control_states::Components;
use hint_index::{Index, no_index};
use shared_certificates::{Refusal, Table};
use shared_search::{Book, find_tree};
use shared_writing::write;
use st_form::{Condition, Variable};
use st_memory::Memory;
use std::alloc::Global;

/// At most so many lists are searched for a condition, as by `found_trees`.
const MOST_LISTS: u32 = 1_000_000;

const LONG: usize = 20000;

const LONG_PARTS: usize = 2_000_000;

const LONG_CONTEXTS: usize = 10000;

const LONG_ENTRIES: usize = 200_000;

/// Whether the search would begin a new book, in which numbers have other trees: these are its own bounds.
fn is_long(book: &Book) -> bool {
    let memo = &book.memo;
    memo.table.size() > LONG
        || memo.table.part_count() > LONG_PARTS
        || memo.contexts.kept.len() > LONG_CONTEXTS
        || memo.found.others.kept.len() > LONG_ENTRIES
}

/// Where the book is long, enters what was found in it, and begins a new one.
fn renew(
    alloc: Global,
    book: &mut Book,
    components: &Components,
    variables: &[Variable],
    roots: &mut Vec<u32>,
    table: &mut Table,
    index: &mut Index,
) -> Result<(), Refusal>
    requires { Knows (setting components.now variables.now) book.old }
    ensures { Knows (setting components.now variables.now) book.new }
{
    if is_long(book) {
        enter(alloc, table, index, &book.memo.trees, roots)?;
        roots.clear();
        *book = Book::new(alloc, components, variables)?;
    }
    Ok(())
}

/// The number of the tree that is found for the condition at a place.
fn tree_at(
    alloc: Global,
    book: &mut Book,
    components: &Components,
    variables: &[Variable],
    conditions: &[Condition],
    place: usize,
) -> Result<Option<u32>, Memory>
    requires searchable { AreSearchable (length variables.now) conditions.now }
    requires place { place < length conditions.now }
    requires knows { Knows (setting components.now variables.now) book.old }
    ensures { Knows (setting components.now variables.now) book.new }
{
    find_tree(
        alloc,
        book,
        components,
        variables,
        &conditions[place],
        MOST_LISTS,
    )
}

/// The table of a tree of each condition, if one is found of each.
fn table_of(
    alloc: Global,
    components: &Components,
    variables: &[Variable],
    conditions: &[Condition],
) -> Result<Option<Table>, Refusal>
    requires { AreSearchable (length variables.now) conditions.now }
{
    let mut table = Table {
        nodes: Vec::new(alloc),
        levels: Vec::new(alloc),
        roots: Vec::new(alloc),
    };
    let mut index = no_index(alloc);
    let mut roots = Vec::new(alloc);
    let mut book = Book::new(alloc, components, variables)?;
    for place in 0..conditions.len() {
        renew(
            alloc, &mut book, components, variables, &mut roots, &mut table, &mut index,
        )?;
        match tree_at(alloc, &mut book, components, variables, conditions, place)? {
            Some(root) => roots.push(root)?,
            None => return Ok(None),
        }
    }
    enter(alloc, &mut table, &mut index, &book.memo.trees, &roots)?;
    Ok(Some(table))
}

/// The text of version 3 of certificates of all conditions, if one is found of each. Whether they are valid is for a check to say.
pub fn text(
    alloc: Global,
    components: &Components,
    variables: &[Variable],
    conditions: &[Condition],
) -> Result<Option<Vec<u8>>, Memory>
    requires { AreSearchable (length variables.now) conditions.now }
{
    match table_of(alloc, components, variables, conditions) {
        Ok(Some(table)) => Ok(Some(write(alloc, &table)?)),
        Ok(None) => Ok(None),
        Err(Refusal::Memory) => Err(Memory),
        Err(_) => Ok(None),
    }
}

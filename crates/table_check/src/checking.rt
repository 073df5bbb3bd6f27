//! The trees of a table against conditions, one after the other.

ghost use Rattle.std.specs.Prelude.{◌≡◌, ◌↔◌, ◌+◌, IfOk, IfSome, IsTrue, length, map};
ghost use Rattle.st_form.specs.Shared.{given_of, plain_condition, shown_of};
ghost use Rattle.farkas_check.specs.PlainProblem.{setting};
ghost use Rattle.farkas_check.specs.Valid.{IsCertificate};
ghost use Rattle.search_laws.specs.Searchable.{AreSearchable, IsSearchable};
ghost use Rattle.shared_certificates.specs.Nodes.{certificates, table_view, tree};
ghost use Rattle.form_table.specs.Contents.{Grows};
ghost use Rattle.shared_search.specs.Books.{AreNumbered, Knows};
ghost use Rattle.table_check.specs.Conditions.{HaveTrees};
ghost use Rattle.table_check.specs.Nodes.{AreNodes, IsSpelled, trees_by};
ghost use Rattle.table_check.specs.Same.{AreEarlier};

use crate::closing::closes;
use crate::finding::{Root, is_found};
use crate::memo::Same;
use crate::sizes::{size_at, sizes};
use control_states::Components;
use shared_certificate_laws::laws::text_is_exact;
use shared_certificates::{Node, Table};
use shared_check::problems::undecided;
use shared_search::{Book, Decisions};
use st_form::{Condition, Variable};
use st_memory::Memory;
use std::alloc::Global;

/// At most so many nodes of trees that the search doesn't find are looked at, for all conditions together.
const MOST_LOOKED_AT: u32 = 10_000_000;

/// What is remembered from one condition to the next: which trees were found to be the same, and how many nodes may still be
/// looked at.
#[derive(Drop)]
struct Notes {
    known: Vec<Option<Same>>,
    left: u32,
}

/// Whether a number's tree is valid for a condition, checked over lists. With `None` nothing is said.
fn is_closed(
    alloc: Global,
    table: &mut form_table::Table,
    decisions: &Decisions,
    components: &Components,
    variables: &[Variable],
    condition: &Condition,
    nodes: &[Node],
    number: u32,
) -> Result<Option<bool>, Memory>
    requires searchable { IsSearchable (length variables.now) condition.now }
    requires nodes { AreNodes nodes.now }
    requires numbered { AreNumbered (setting components.now variables.now) table.old.decisions decisions.now }
    ensures grows { Grows table.old table.new }
    ensures exact { IfOk result (λ o. IfSome o (λ yes. IsTrue yes
        ↔ IsCertificate (setting components.now variables.now) (given_of condition.now) (shown_of condition.now) (tree (trees_by nodes.now) number))) }
{
    let list = table.first_list(alloc, condition.given.as_slice(), &condition.shown)?;
    let problem = undecided(alloc, components.parts().len(), variables.len(), list)?;
    closes(
        alloc, nodes, table, decisions, components, variables, number, &problem,
    )
}

/// The same over the lists of a book.
fn is_closed_in(
    alloc: Global,
    book: &mut Book,
    components: &Components,
    variables: &[Variable],
    condition: &Condition,
    nodes: &[Node],
    number: u32,
) -> Result<Option<bool>, Memory>
    requires searchable { IsSearchable (length variables.now) condition.now }
    requires nodes { AreNodes nodes.now }
    requires knows { Knows (setting components.now variables.now) book.old }
    ensures knows { Knows (setting components.now variables.now) book.new }
    ensures exact { IfOk result (λ o. IfSome o (λ yes. IsTrue yes
        ↔ IsCertificate (setting components.now variables.now) (given_of condition.now) (shown_of condition.now) (tree (trees_by nodes.now) number))) }
{
    is_closed(
        alloc,
        &mut book.memo.table,
        &book.decisions,
        components,
        variables,
        condition,
        nodes,
        number,
    )
}

/// Whether a condition's tree is valid for it. With `None` nothing is said.
fn is_certificate(
    alloc: Global,
    book: &mut Book,
    notes: &mut Notes,
    components: &Components,
    variables: &[Variable],
    condition: &Condition,
    nodes: &[Node],
    root: Root,
) -> Result<Option<bool>, Memory>
    requires searchable { IsSearchable (length variables.now) condition.now }
    requires nodes { AreNodes nodes.now }
    requires knows { Knows (setting components.now variables.now) book.old }
    requires known { AreEarlier root.place notes.old.known.items }
    ensures knows { Knows (setting components.now variables.now) book.new }
    ensures known { IfOk result (λ _. AreEarlier (root.place + 1) notes.new.known.items) }
    ensures exact { IfOk result (λ o. IfSome o (λ yes. IsTrue yes
        ↔ IsCertificate (setting components.now variables.now) (given_of condition.now) (shown_of condition.now) (tree (trees_by nodes.now) root.number))) }
{
    if is_found(
        alloc,
        book,
        &mut notes.known,
        components,
        variables,
        condition,
        nodes,
        root,
    )? {
        return Ok(Some(true));
    }
    if root.size > notes.left {
        return Ok(None);
    }
    notes.left -= root.size;
    is_closed_in(
        alloc,
        book,
        components,
        variables,
        condition,
        nodes,
        root.number,
    )
}

/// Whether there are as many trees as conditions, and each is valid for the condition at its place. With `None` nothing is said.
fn check_each(
    alloc: Global,
    components: &Components,
    variables: &[Variable],
    conditions: &[Condition],
    nodes: &[Node],
    roots: &[u32],
) -> Result<Option<bool>, Memory>
    requires searchable { AreSearchable (length variables.now) conditions.now }
    requires nodes { AreNodes nodes.now }
    ensures { IfOk result (λ o. IfSome o (λ yes. IsTrue yes
        ↔ HaveTrees (setting components.now variables.now) (map plain_condition conditions.now) (map (tree (trees_by nodes.now)) roots.now))) }
{
    if roots.len() != conditions.len() {
        return Ok(Some(false));
    }
    let sizes = sizes(alloc, nodes)?;
    let mut book = Book::new(alloc, components, variables)?;
    let mut notes = Notes {
        known: Vec::new(alloc),
        left: MOST_LOOKED_AT,
    };
    for (place, condition) in conditions.iter().enumerate() {
        let number = roots[place];
        let root = Root {
            number,
            size: size_at(sizes.as_slice(), number),
            place,
        };
        let Some(yes) = is_certificate(
            alloc, &mut book, &mut notes, components, variables, condition, nodes, root,
        )?
        else {
            return Ok(None);
        };
        if !yes {
            return Ok(Some(false));
        }
    }
    Ok(Some(true))
}

/// Whether the trees of a table are certificates of conditions: as many as there are conditions, each valid for the condition at
/// its place. With `None` nothing is said.
pub fn check(
    alloc: Global,
    components: &Components,
    variables: &[Variable],
    conditions: &[Condition],
    table: &Table,
) -> Result<Option<bool>, Memory>
    requires searchable { AreSearchable (length variables.now) conditions.now }
    requires spelled { IsSpelled table.now }
    ensures { IfOk result (λ o. IfSome o (λ yes. IsTrue yes
        ↔ HaveTrees (setting components.now variables.now) (map plain_condition conditions.now) (certificates (table_view table.now)))) }
{
    text_is_exact();
    let nodes = table.nodes.as_slice();
    let roots = table.roots.as_slice();
    check_each(alloc, components, variables, conditions, nodes, roots)
}

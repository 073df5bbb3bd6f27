//! Whether a condition's tree is the one that the search finds. Where it is, it is valid, so the check of it is spared.

ghost use Rattle.std.specs.Prelude.{◌≡◌, ◌+◌, IfOk, length, true};
ghost use Rattle.st_form.specs.Shared.{given_of, shown_of};
ghost use Rattle.farkas_check.specs.PlainProblem.{setting};
ghost use Rattle.farkas_check.specs.Valid.{IsCertificate};
ghost use Rattle.search_laws.specs.Searchable.{IsSearchable};
ghost use Rattle.shared_certificates.specs.Nodes.{tree};
ghost use Rattle.shared_search.specs.Books.{Knows};
ghost use Rattle.table_check.specs.Nodes.{AreNodes, trees_by};
ghost use Rattle.table_check.specs.Same.{AreEarlier};

use crate::memo::Same;
use crate::sameness::is_same;
use control_states::Components;
use linear_prover::look_at_condition;
use shared_certificates::Node;
use shared_search::{Book, find_tree};
use sharing_laws::laws::found_trees_are_valid;
use st_form::{Condition, Variable};
use st_memory::Memory;
use std::alloc::Global;

/// At most so many lists of conjuncts are searched for a condition.
const MOST_LISTS: u32 = 1_000_000;

/// The tree of a condition: its number, how many nodes it has, unfolded, and the condition's place.
#[derive(Clone, Copy)]
pub struct Root {
    pub number: u32,
    pub size: u32,
    pub place: usize,
}

/// Whether a condition's tree is the one that the search over lists finds for it, in no more lists than the tree has nodes. Such
/// a tree is valid. Where the answer is no, nothing is said.
pub fn is_found(
    alloc: Global,
    book: &mut Book,
    known: &mut Vec<Option<Same>>,
    components: &Components,
    variables: &[Variable],
    condition: &Condition,
    nodes: &[Node],
    root: Root,
) -> Result<bool, Memory>
    requires searchable { IsSearchable (length variables.now) condition.now }
    requires nodes { AreNodes nodes.now }
    requires knows { Knows (setting components.now variables.now) book.old }
    requires known { AreEarlier root.place known.old.items }
    ensures knows { Knows (setting components.now variables.now) book.new }
    ensures known { IfOk result (λ _. AreEarlier (root.place + 1) known.new.items) }
    ensures valid { IfOk result (λ yes. yes ≡ true
        → IsCertificate (setting components.now variables.now) (given_of condition.now) (shown_of condition.now) (tree (trees_by nodes.now) root.number)) }
{
    look_at_condition(condition);
    found_trees_are_valid();
    let most = root.size.min(MOST_LISTS);
    match find_tree(alloc, book, components, variables, condition, most)? {
        None => Ok(false),
        Some(found) => is_same(
            known,
            root.place,
            &book.memo.trees,
            nodes,
            found,
            root.number,
        ),
    }
}

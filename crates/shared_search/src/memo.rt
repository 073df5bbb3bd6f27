//! The trees that were found, by list and context.

ghost use Rattle.std.specs.Prelude.{◌≡◌, ℕ, ◌⊎◌, ◌<◌, IfSome, List, false, slice_index_or, None, Some};
ghost use Rattle.st_form.specs.Formula.{Formula};
ghost use Rattle.st_certificate.specs.Tree.{Tree};
ghost use Rattle.farkas_check.specs.Problem.{Setting};
ghost use Rattle.shared_search.specs.Contexts.{ContextTable};
ghost use Rattle.shared_search.specs.Lists.{HasTree, IsKey, key_of};
ghost use Rattle.shared_search.specs.Found.{Holds};

use crate::contexts::{Contexts, MOST_CONTEXTS};
use crate::entries::{Entries, Entry, keep, recall};
use crate::lists::Key;
use form_table::Table;
use st_memory::Memory;
use std::alloc::Global;
use tree_table::TreeTable;

/// Which tree was found for a list in the first context, by the list's number, and which in others.
#[derive(Drop)]
pub struct Found {
    pub known: Vec<Option<u32>>,
    pub others: Entries,
}

/// Lists of conjuncts, trees, contexts, and which tree was found for a list in a context; and how many lists may be searched.
#[derive(Drop)]
pub struct Memo {
    pub table: Table,
    pub trees: TreeTable,
    pub contexts: Contexts,
    pub found: Found,
    pub left: u32,
}

/// More entries aren't kept.
const MOST_ENTRIES: usize = 1 << 20;

/// Whether no more lists may be searched.
pub fn is_full(memo: &Memo) -> bool
    ensures { result ≡ false → 0 < memo.now.left }
{
    if memo.left == 0 {
        return true;
    }
    if memo.table.is_full() {
        return true;
    }
    memo.contexts.kept.len() > MOST_CONTEXTS || memo.found.others.kept.len() > MOST_ENTRIES
}

/// The tree of a list in the first context, if one was found.
fn recall_first(known: &[Option<u32>], list: u32) -> Option<u32>
    ensures { result ≡ slice_index_or known.now list None }
{
    match known.get(list as usize) {
        Some(tree) => *tree,
        None => None,
    }
}

/// Remembers the tree of a list in the first context.
fn keep_first(known: &mut Vec<Option<u32>>, list: u32, tree: u32) -> Result<(), Memory>
    ensures { (n t : ℕ) → slice_index_or known.new.items n None ≡ Some t
        → (slice_index_or known.old.items n None ≡ Some t) ⊎ ((n ≡ list) × (t ≡ tree)) }
{
    let place = list as usize;
    if place >= known.len() {
        known.resize(place + 1, None)?;
    }
    known[place] = Some(tree);
    Ok(())
}

/// The tree of a list in a context, if one was found.
pub fn remembered(found: &Found, key: Key) -> Option<u32>
    ensures { (k : Setting) (ts : List Formula) (us : List Tree) (cs : ContextTable) → Holds k ts us cs found.now
        → IfSome result (λ t. HasTree k us t (key_of ts cs key)) }
{
    if key.context == 0 {
        return recall_first(found.known.as_slice(), key.list);
    }
    recall(&found.others, key)
}

/// Remembers the tree of a list in a context.
pub fn remember(alloc: Global, found: &mut Found, key: Key, tree: u32) -> Result<(), Memory>
    ensures { (k : Setting) (ts : List Formula) (us : List Tree) (cs : ContextTable) → Holds k ts us cs found.old → IsKey ts cs key
        → HasTree k us tree (key_of ts cs key) → Holds k ts us cs found.new }
{
    if key.context == 0 {
        return keep_first(&mut found.known, key.list, tree);
    }
    keep(alloc, &mut found.others, Entry { key, tree })
}

//! The trees that were found in other contexts than the first, by list and context. The index is a hint: what it gives is compared.

ghost use Rattle.std.specs.Prelude.{◌≡◌, [], List, IfSome};
ghost use Rattle.st_form.specs.Formula.{Formula};
ghost use Rattle.st_certificate.specs.Tree.{Tree};
ghost use Rattle.farkas_check.specs.Problem.{Setting};
ghost use Rattle.shared_search.specs.Contexts.{ContextTable};
ghost use Rattle.shared_search.specs.Lists.{HasTree, key_of};
ghost use Rattle.shared_search.specs.Found.{AreEntries, IsEntry};

use crate::lists::Key;
use hint_index::{Index, enter, folded, hint, mixed, no_index};
use st_memory::Memory;
use std::alloc::Global;

/// The tree of a list in a context.
#[derive(Clone, Copy)]
pub struct Entry {
    pub key: Key,
    pub tree: u32,
}

/// The entries in order, and an index of them by hash, which has each by its place and one more.
#[derive(Drop)]
pub struct Entries {
    pub kept: Vec<Entry>,
    pub index: Index,
}

/// No entries.
pub fn no_entries(alloc: Global) -> Entries
    ensures { result.kept.items ≡ [] }
{
    Entries {
        kept: Vec::new(alloc),
        index: no_index(alloc),
    }
}

fn hashed(key: Key) -> u32 {
    folded(mixed(mixed(0, u64::from(key.context)), u64::from(key.list)))
}

/// The tree at a place, if it is that of this list in this context.
fn tree_at(entries: &[Entry], place: usize, key: Key) -> Option<u32>
    ensures { (k : Setting) (ts : List Formula) (us : List Tree) (cs : ContextTable) → AreEntries k ts us cs entries.now
        → IfSome result (λ t. HasTree k us t (key_of ts cs key)) }
{
    match entries.get(place) {
        None => None,
        Some(entry) => {
            if entry.key.list == key.list && entry.key.context == key.context {
                return Some(entry.tree);
            }
            None
        }
    }
}

/// The tree that was found for a list in a context.
pub fn recall(entries: &Entries, key: Key) -> Option<u32>
    ensures { (k : Setting) (ts : List Formula) (us : List Tree) (cs : ContextTable) → AreEntries k ts us cs entries.now.kept.items
        → IfSome result (λ t. HasTree k us t (key_of ts cs key)) }
{
    let number = hint(entries.index.slots(), hashed(key));
    let place = (number as usize).wrapping_sub(1);
    tree_at(entries.kept.as_slice(), place, key)
}

/// Keeps an entry more.
pub fn keep(alloc: Global, entries: &mut Entries, entry: Entry) -> Result<(), Memory>
    ensures { (k : Setting) (ts : List Formula) (us : List Tree) (cs : ContextTable) → AreEntries k ts us cs entries.old.kept.items → IsEntry k ts us cs entry
        → AreEntries k ts us cs entries.new.kept.items }
{
    entries.kept.push(entry)?;
    if let Ok(number) = u32::try_from(entries.kept.len()) {
        enter(alloc, &mut entries.index, hashed(entry.key), number)?;
    }
    Ok(())
}

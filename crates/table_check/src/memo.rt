//! Which trees were found to be the same. What is remembered is of a turn, and another turn begins by counting on: nothing is
//! cleared.

ghost use Rattle.std.specs.Prelude.{◌≡◌, ℕ, ◌⊎◌, IfOk, List, Some, None, slice_index_or, true};
ghost use Rattle.st_certificate.specs.Tree.{Tree};
ghost use Rattle.tree_table.specs.Table.{tree};
ghost use Rattle.table_check.specs.declared.memo.Same.{Same};
ghost use Rattle.table_check.specs.Same.{AreSame};

use st_memory::Memory;

/// The number of the same tree in the other table, and in which turn it was found to be the same.
#[derive(Clone, Copy)]
pub struct Same {
    pub turn: usize,
    pub number: u32,
}

/// What is remembered of a tree.
fn recall(known: &[Option<Same>], found: u32) -> Option<Same>
    ensures { result ≡ slice_index_or known.now found None }
{
    match known.get(found as usize) {
        Some(entry) => *entry,
        None => None,
    }
}

/// Whether two trees were found to be the same in this turn.
pub fn is_known(known: &[Option<Same>], turn: usize, found: u32, given: u32) -> bool
    ensures { (us ts : List Tree) → AreSame turn us ts known.now → result ≡ true → tree us found ≡ tree ts given }
{
    match recall(known, found) {
        Some(same) => same.turn == turn && same.number == given,
        None => false,
    }
}

/// Puts an entry in the place of a tree.
fn put(known: &mut Vec<Option<Same>>, found: u32, same: Same) -> Result<(), Memory>
    ensures { IfOk result (λ _. (a : ℕ) (s : Same) → slice_index_or known.new.items a None ≡ Some s
        → (slice_index_or known.old.items a None ≡ Some s) ⊎ ((a ≡ found) × (s ≡ same))) }
{
    let place = found as usize;
    if place >= known.len() {
        known.resize(place + 1, None)?;
    }
    known[place] = Some(same);
    Ok(())
}

/// Remembers that two trees are the same.
pub fn keep(
    known: &mut Vec<Option<Same>>,
    turn: usize,
    found: u32,
    given: u32,
) -> Result<(), Memory>
    ensures { (us ts : List Tree) → AreSame turn us ts known.old.items → tree us found ≡ tree ts given
        → IfOk result (λ _. AreSame turn us ts known.new.items) }
{
    put(
        known,
        found,
        Same {
            turn,
            number: given,
        },
    )
}

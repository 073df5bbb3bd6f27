//! Changes that are kept: a change is looked up by hash, and compared part by part.

ghost use Rattle.std.specs.Prelude.{◌≡◌, ℕ, IfOk, IfSome, map};
ghost use Rattle.std.specs.Arc.{arc_value};
ghost use Rattle.st_form.specs.Formula.{Formula};
ghost use Rattle.st_form.specs.Plain.{plain, plain_change};

use crate::sameness::is_same_change;
use hint_index::{Index, enter, hint, no_index};
use st_form::{Change, Form, Lin};
use st_memory::Memory;
use std::alloc::Global;
use std::sync::Arc;

/// Changes, and an index of them by hash: a change's number there is its place, counted from 1.
#[derive(Drop)]
pub struct Changes {
    kept: Vec<Arc<Change, Global>>,
    index: Index,
}

/// No changes.
pub fn no_changes(alloc: Global) -> Changes {
    Changes {
        kept: Vec::new(alloc),
        index: no_index(alloc),
    }
}

/// A kept change that equals this one, which is copied where there is none.
pub fn kept_change(
    alloc: Global,
    changes: &mut Changes,
    hash: u32,
    change: &Change,
) -> Result<Arc<Change, Global>, Memory>
    ensures { IfOk result (λ c. plain_change (arc_value c) ≡ plain_change change.now) }
{
    let known = hint(changes.index.slots(), hash);
    if let Some(same) = same(&changes.kept, known, change)? {
        return Ok(same);
    }
    let kept = Arc::new(alloc, copy_change(alloc, change)?)?;
    changes.kept.push(Arc::try_clone(&kept)?)?;
    let number = u32::try_from(changes.kept.len()).unwrap_or(u32::MAX);
    enter(alloc, &mut changes.index, hash, number)?;
    Ok(kept)
}

/// The change of this number, if it is the same as this one.
fn same(
    kept: &[Arc<Change, Global>],
    known: u32,
    change: &Change,
) -> Result<Option<Arc<Change, Global>>, Memory>
    ensures { IfOk result (λ o. IfSome o (λ c. plain_change (arc_value c) ≡ plain_change change.now)) }
{
    match kept.get((known as usize).wrapping_sub(1)) {
        None => Ok(None),
        Some(known) => {
            if is_same_change(known, change) {
                return Ok(Some(Arc::try_clone(known)?));
            }
            Ok(None)
        }
    }
}

/// An equal change.
fn copy_change(alloc: Global, change: &Change) -> Result<Change, Memory>
    ensures { IfOk result (λ c. plain_change c ≡ plain_change change.now) }
{
    Ok(Change {
        numbers: copy_numbers(alloc, &change.numbers)?,
        truths: copy_truths(alloc, &change.truths)?,
        leaves: change.leaves.clone()?,
        enters: change.enters.clone()?,
    })
}

fn copy_numbers(alloc: Global, numbers: &[(u32, Lin)]) -> Result<Vec<(u32, Lin)>, Memory>
    ensures { IfOk result (λ v. v.items ≡ numbers.now) }
{
    let mut out = Vec::with_capacity(alloc, numbers.len())?;
    for pair in numbers {
        out.push((pair.0, pair.1.copy(alloc)?))?;
    }
    Ok(out)
}

fn copy_truths(alloc: Global, truths: &[(u32, Form)]) -> Result<Vec<(u32, Form)>, Memory>
    ensures { IfOk result (λ v. map {B = ℕ × Formula} (λ p. (p.0, plain p.1)) v.items ≡ map {B = ℕ × Formula} (λ p. (p.0, plain p.1)) truths.now) }
{
    let mut out = Vec::with_capacity(alloc, truths.len())?;
    for pair in truths {
        out.push((pair.0, pair.1.copy(alloc)?))?;
    }
    Ok(out)
}

//! Formulas that are made once: before a formula is made, the index is asked whether there is an equal one (Ershov, On programming
//! of arithmetic operations, 1958). Nothing need be known of a pool, since what its index gives is compared before it is used.

ghost use Rattle.std.specs.Prelude.{◌≡◌, ◌++◌, IfOk, IfSome, OnOk, map};
ghost use Rattle.st_form.specs.Plain.{plain};

use crate::hashes::form_hash;
use hint_index::{Index, enter, hint, no_index};
use st_form::{Form, SharedForm, is_same};
use st_memory::Memory;
use std::alloc::Global;

/// Formulas, an index of them by hash, and one of the rows of numbers by number: a formula's number there is its place, counted from 1.
#[derive(Drop)]
pub struct Pool {
    pub forms: Vec<SharedForm>,
    index: Index,
    pub numbers: Index,
}

/// A pool of nothing.
pub fn no_pool(alloc: Global) -> Pool {
    Pool {
        forms: Vec::new(alloc),
        index: no_index(alloc),
        numbers: no_index(alloc),
    }
}

/// A formula of the pool that equals this one, which is copied where there is none.
pub fn shared(alloc: Global, pool: &mut Pool, form: &Form) -> Result<SharedForm, Memory>
    ensures { IfOk result (λ s. plain s ≡ plain form.now) }
{
    let hash = form_hash(form);
    let known = hint(pool.index.slots(), hash);
    match same(&pool.forms, known, form)? {
        Some(same) => Ok(same),
        None => keep(alloc, pool, hash, known, form.copy(alloc)?),
    }
}

/// The same for a formula that is given away.
pub fn taken(alloc: Global, pool: &mut Pool, form: Form) -> Result<SharedForm, Memory>
    ensures { IfOk result (λ s. plain s ≡ plain form) }
{
    let hash = form_hash(&form);
    let known = hint(pool.index.slots(), hash);
    match same(&pool.forms, known, &form)? {
        Some(same) => Ok(same),
        None => keep(alloc, pool, hash, known, form),
    }
}

/// The formula of this number, if it is the same as this one.
fn same(forms: &[SharedForm], known: u32, form: &Form) -> Result<Option<SharedForm>, Memory>
    ensures { IfOk result (λ o. IfSome o (λ s. plain s ≡ plain form.now)) }
{
    match forms.get((known as usize).wrapping_sub(1)) {
        None => Ok(None),
        Some(kept) => {
            if is_same(kept.get(), form) {
                return Ok(Some(kept.share()?));
            }
            Ok(None)
        }
    }
}

/// Keeps a formula. Where another one is known by its hash it isn't entered, since the index would always give the other one.
fn keep(
    alloc: Global,
    pool: &mut Pool,
    hash: u32,
    known: u32,
    form: Form,
) -> Result<SharedForm, Memory>
    ensures { IfOk result (λ s. s ≡ form) }
{
    let place = u32::try_from(pool.forms.len()).unwrap_or(u32::MAX);
    let kept = SharedForm::new(alloc, form, place)?;
    pool.forms.push(kept.share()?)?;
    if known == 0 {
        enter(alloc, &mut pool.index, hash, place.saturating_add(1))?;
    }
    Ok(kept)
}

/// Appends formulas of the pool that equal these.
pub fn share_all(
    alloc: Global,
    pool: &mut Pool,
    forms: &[Form],
    out: &mut Vec<SharedForm>,
) -> Result<(), Memory>
    ensures { OnOk result (map plain out.new.items ≡ map plain out.old.items ++ map plain forms.now) }
{
    for form in forms {
        out.push(shared(alloc, pool, form)?)?;
    }
    Ok(())
}

//! What the conditions of a list have in common, each made once: formulas, and formulas put before modes.

ghost use Rattle.std.specs.Prelude.{◌≡◌, IfOk};
ghost use Rattle.st_form.specs.Plain.{plain};
ghost use Rattle.transition_system.specs.Plain.{plain_mode};
ghost use Rattle.vc_generator.specs.Building.{after as after_of};

use crate::befores::{Before, Befores, no_befores, recalled, remember};
use crate::changes::{Changes, kept_change, no_changes};
use crate::hashes::form_mixed;
use crate::numbers::after;
use crate::pools::{Pool, no_pool, shared, taken};
use hint_index::{folded, hint};
use st_form::{Form, SharedForm};
use st_memory::Memory;
use std::alloc::Global;
use transition_system::Mode;

#[derive(Drop)]
pub struct Sharing {
    pub pool: Pool,
    pub changes: Changes,
    pub befores: Befores,
}

/// Nothing is shared.
pub fn no_sharing(alloc: Global) -> Sharing {
    Sharing {
        pool: no_pool(alloc),
        changes: no_changes(alloc),
        befores: no_befores(alloc),
    }
}

/// The formula that holds before the mode exactly where `form` holds behind it, or `False` where it can't be written. `hash` is that
/// of the mode's change.
pub fn before(
    alloc: Global,
    sharing: &mut Sharing,
    form: &Form,
    mode: &Mode,
    hash: u64,
) -> Result<SharedForm, Memory>
    ensures { IfOk result (λ s. plain s ≡ after_of (plain_mode mode.now) (plain form.now)) }
{
    let known = hint(
        sharing.befores.index.slots(),
        folded(form_mixed(hash, form)),
    );
    match recalled(&sharing.befores.entries, known, form, &mode.change)? {
        Some(before) => Ok(before),
        None => put_before(alloc, sharing, form, mode, hash),
    }
}

/// The same where it isn't remembered.
fn put_before(
    alloc: Global,
    sharing: &mut Sharing,
    form: &Form,
    mode: &Mode,
    hash: u64,
) -> Result<SharedForm, Memory>
    ensures { IfOk result (λ s. plain s ≡ after_of (plain_mode mode.now) (plain form.now)) }
{
    let made = after(alloc, form, mode)?;
    let before = taken(alloc, &mut sharing.pool, made)?;
    let entry = Before {
        behind: shared(alloc, &mut sharing.pool, form)?,
        change: kept_change(alloc, &mut sharing.changes, folded(hash), &mode.change)?,
        before: before.share()?,
    };
    let key = folded(form_mixed(hash, form));
    remember(alloc, &mut sharing.befores, key, entry)?;
    Ok(before)
}

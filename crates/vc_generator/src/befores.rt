//! Formulas put before changes. The conditions of a rule put the same formulas before the same mode time and again, so each that was
//! found is remembered, with the formula and the change that it comes of. What is looked up by hash is compared with both.

ghost use Rattle.std.specs.Prelude.{◌≡◌, IfOk, IfSome, false, unwrap_or};
ghost use Rattle.st_form.specs.Exchange.{exchanged};
ghost use Rattle.st_form.specs.Formula.{truth_value};
ghost use Rattle.st_form.specs.Plain.{plain, plain_change};

use crate::sameness::is_same_change;
use hint_index::{Index, enter, no_index};
use st_form::{Change, Form, SharedForm, is_same};
use st_memory::Memory;
use std::alloc::Global;
use std::marker::Model;
use std::sync::Arc;

/// A formula, a change, and the formula that comes before.
#[derive(Drop)]
pub struct Before {
    pub behind: SharedForm,
    pub change: Arc<Change, Global>,
    pub before: SharedForm,
}

impl Model for Before {
    ghost use Rattle.std.specs.Prelude.{◌≡◌, false, unwrap_or};
    ghost use Rattle.std.specs.Arc.{arc_value};
    ghost use Rattle.st_form.specs.Exchange.{exchanged};
    ghost use Rattle.st_form.specs.Formula.{truth_value};
    ghost use Rattle.st_form.specs.Plain.{plain, plain_change};

    ghost Value = { Unit {0} };

    ghost view = { λ _. tt };

    ghost invariant = { λ e. plain e.before ≡ unwrap_or (exchanged (plain_change (arc_value e.change)) (plain e.behind)) (truth_value false) };
}

/// What was found, and an index of it by hash: an entry's number there is its place, counted from 1.
#[derive(Drop)]
pub struct Befores {
    pub entries: Vec<Before>,
    pub index: Index,
}

/// Nothing is remembered.
pub fn no_befores(alloc: Global) -> Befores {
    Befores {
        entries: Vec::new(alloc),
        index: no_index(alloc),
    }
}

/// The formula that the entry of this number has, if the entry is of this formula and this change.
pub fn recalled(
    entries: &[Before],
    known: u32,
    form: &Form,
    change: &Change,
) -> Result<Option<SharedForm>, Memory>
    ensures { IfOk result (λ o. IfSome o (λ s. plain s ≡ unwrap_or (exchanged (plain_change change.now) (plain form.now)) (truth_value false))) }
{
    match entries.get((known as usize).wrapping_sub(1)) {
        None => Ok(None),
        Some(entry) => {
            if is_same(entry.behind.get(), form) && is_same_change(&entry.change, change) {
                return Ok(Some(entry.before.share()?));
            }
            Ok(None)
        }
    }
}

/// Remembers what was found.
pub fn remember(
    alloc: Global,
    befores: &mut Befores,
    hash: u32,
    entry: Before,
) -> Result<(), Memory> {
    befores.entries.push(entry)?;
    let number = u32::try_from(befores.entries.len()).unwrap_or(u32::MAX);
    enter(alloc, &mut befores.index, hash, number)
}

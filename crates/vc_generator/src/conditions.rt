//! The list of conditions, within its limits.

ghost use Rattle.std.specs.Prelude.{◌≡◌, ◌-◌, ◌^◌, ◌++◌, ℕ, [], ◌∷◌, min, take, OnOk, OnErr};
ghost use Rattle.st_form.specs.Shared.{plain_condition};
ghost use Rattle.vc_generator.specs.Plain.{plain_list};
ghost use Rattle.vc_generator.specs.Refusing.{HasRoom, Pushes, weights};

use crate::faults::VcFault;
use crate::sharing::{Sharing, no_sharing};
use crate::weighing::condition_weight;
use st_form::Condition;
use st_memory::Memory;
use std::alloc::Global;
use std::marker::Model;

/// How many conditions there may be, how many atoms one may have, and how much all may weigh.
const MOST: usize = 20_000;

const WIDEST: u64 = 2_048;

const HEAVIEST: u64 = 16_777_216;

/// Conditions, the sum of their weights, and what they share: a condition weighs the atoms and the entries of linear forms of what is
/// given and what is shown.
#[derive(Drop)]
pub struct Conditions {
    pub items: Vec<Condition>,
    pub weight: u64,
    pub(crate) sharing: Sharing,
}

impl Model for Conditions {
    ghost use Rattle.std.specs.Prelude.{◌≡◌, map};
    ghost use Rattle.st_form.specs.Shared.{plain_condition};
    ghost use Rattle.vc_generator.specs.Plain.{View, view_code};
    ghost use Rattle.vc_generator.specs.Refusing.{weights};

    ghost Value = { View };

    ghost coded = { view_code };

    ghost view = { λ c. record { items = c.items.items; weight = c.weight } };

    ghost invariant = { λ c. c.weight ≡ weights (map plain_condition c.items.items) };
}

impl Conditions {
    ghost use Rattle.std.specs.Prelude.{◌≡◌, []};

    /// No conditions.
    pub fn new(alloc: Global) -> Conditions
        ensures { result.items ≡ [] }
    {
        Conditions {
            items: Vec::new(alloc),
            weight: 0,
            sharing: no_sharing(alloc),
        }
    }
}

/// Takes the list back to its first `length` conditions, which weigh `weight`.
pub fn take_back(out: &mut Conditions, length: usize, weight: u64)
    requires { weight ≡ weights (take length (plain_list out.old)) }
    ensures { plain_list out.new ≡ take length (plain_list out.old) }
{
    out.items.truncate(length);
    out.weight = weight;
}

/// Whether there is room for a further condition of so many atoms, before it is built.
pub fn room_for(out: &Conditions, atoms: u64) -> Result<(), VcFault>
    ensures { (wide : ℕ) → atoms ≡ min wide (2 ^ 64 - 1) → HasRoom result (plain_list out.now) wide }
{
    if out.items.len() >= MOST {
        return Err(VcFault::TooMany);
    }
    if atoms > WIDEST {
        return Err(VcFault::TooWide);
    }
    Ok(())
}

/// Appends a condition, unless the list would be too heavy.
pub fn append(out: &mut Conditions, condition: Condition) -> Result<(), VcFault>
    ensures { Pushes result (plain_list out.old) (plain_list out.new) (plain_condition condition) }
{
    let total = out.weight.saturating_add(condition_weight(&condition));
    if total > HEAVIEST {
        return Err(VcFault::TooHeavy);
    }
    push(&mut out.items, condition)?;
    out.weight = total;
    Ok(())
}

fn push(items: &mut Vec<Condition>, condition: Condition) -> Result<(), Memory>
    ensures ok { OnOk result (items.new.items ≡ items.old.items ++ condition ∷ []) }
    ensures err { OnErr result (items.new.items ≡ items.old.items) }
{
    items.push(condition)?;
    Ok(())
}

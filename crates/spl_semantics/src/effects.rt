//! What an assignment makes of a store.

ghost use Rattle.std.specs.Prelude.{◌≡◌, IfOk, slice_set};
ghost use Rattle.st_program.specs.Plain.{plain_targets};
ghost use Rattle.spl_semantics.specs.Stores.{assigned};
ghost use Rattle.spl_semantics.specs.Data.{store_of, types, TargetsMeet};
ghost use Rattle.spl_semantics.specs.Limits.{wide_targets};
ghost use Rattle.spl_semantics.specs.Answers.{Answers};

use crate::evaluation::datum_of;
use crate::faults::MoveFault;
use st_program::{Datum, Value};
use std::alloc::Global;

/// Gives a variable of the store a value.
pub fn put(store: &mut Vec<Datum>, variable: u32, datum: Datum)
    ensures { store.new.items ≡ slice_set store.old.items variable datum }
{
    if (variable as usize) < store.len() {
        store[variable as usize] = datum;
    }
}

/// The store in which all targets have their right sides' values, each read in the store before.
pub fn assigned(
    alloc: Global,
    targets: &[(u32, Value)],
    store: &[Datum],
) -> Result<Vec<Datum>, MoveFault>
    ensures value { TargetsMeet (types store.now) (plain_targets targets.now) → Answers (λ v. store_of v.items) result
        (wide_targets (plain_targets targets.now) (store_of store.now))
        (assigned (plain_targets targets.now) (store_of store.now)) }
    ensures types { TargetsMeet (types store.now) (plain_targets targets.now) → IfOk result (λ v. types v.items ≡ types store.now) }
{
    let mut after = Vec::from_slice(alloc, store)?;
    for target in targets {
        let datum = datum_of(&target.1, store)?;
        put(&mut after, target.0, datum);
    }
    Ok(after)
}

//! The state behind a step.

ghost use Rattle.std.specs.Prelude.{◌≡◌, ◌&&◌, ◌||◌, ℕ, not, IfOk, IfSome, MatchOption, Some};
ghost use Rattle.st_form.specs.Exchange.{before, exchanged, is_listed};
ghost use Rattle.st_form.specs.Formula.{Formula, truth};
ghost use Rattle.st_form.specs.Plain.{plain_change};
ghost use Rattle.spl_semantics.specs.Data.{types};
ghost use Rattle.transition_system.specs.Bounds.{RisesFrom};
ghost use Rattle.shown_states.specs.Pictures.{seen};
ghost use Rattle.shown_states.specs.Behind.{GivesByType, IsWide, IsNarrow};
ghost use Rattle.shown_states.specs.Moving.{HasOwnLocations, MovesControl, CanLeave, ShowsControl};

use crate::controls::control_behind;
use crate::pictures::Picture;
use crate::stores::store_behind;
use control_states::Components;
use spl_semantics::MoveFault;
use st_form::{Change, TransName};
use st_memory::Memory;
use std::alloc::Global;

/// The locations where control is behind a change: those that it enters, and those of before that it doesn't leave.
fn fronts_behind(alloc: Global, fronts: &[u32], change: &Change) -> Result<Vec<u32>, Memory>
    ensures { IfOk result (λ v. (l : ℕ) → is_listed l v.items
        ≡ (is_listed l change.now.enters.items || (not (is_listed l change.now.leaves.items) && is_listed l fronts.now))) }
{
    let mut out = Vec::from_slice(alloc, &change.enters)?;
    for front in fronts {
        if !change.leaves.contains(front) {
            out.push(*front)?;
        }
    }
    Ok(out)
}

impl Picture {
    /// The state behind a change that the named transition makes; `None` exactly where a number on the way is of size 2^126 or more.
    pub fn behind(
        &self,
        alloc: Global,
        components: &Components,
        change: &Change,
        name: TransName,
    ) -> Result<Option<Picture>, Memory>
        ensures seen { IfOk result (λ o. IfSome o (λ after. GivesByType (types self.now.store.items) (plain_change change.now)
            → seen after ≡ before (seen self.now) (plain_change change.now))) }
        ensures formulas { IfOk result (λ o. IfSome o (λ after. GivesByType (types self.now.store.items) (plain_change change.now)
            → (f g : Formula) → exchanged (plain_change change.now) f ≡ Some g → truth (seen after) f ≡ truth (seen self.now) g)) }
        ensures told { IfOk result (λ o. MatchOption o
            (IsWide (plain_change change.now) self.now.store.items)
            (λ after. IsNarrow (plain_change change.now) self.now.store.items)) }
        ensures rises { IfOk result (λ o. IfSome o (λ after. RisesFrom 0 after.control.items)) }
        ensures control { IfOk result (λ o. IfSome o (λ after.
            HasOwnLocations components.now → MovesControl components.now name (plain_change change.now) → CanLeave (plain_change change.now) (seen self.now)
            → ShowsControl components.now self.now → ShowsControl components.now after)) }
    {
        let store = match store_behind(alloc, self, change) {
            Ok(store) => store,
            Err(MoveFault::ValueLimit) => return Ok(None),
            Err(MoveFault::Memory) => return Err(Memory),
        };
        let control = control_behind(alloc, components, &self.control, change, name)?;
        let fronts = fronts_behind(alloc, &self.fronts, change)?;
        Ok(Some(Picture {
            control,
            fronts,
            store,
        }))
    }
}

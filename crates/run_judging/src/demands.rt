//! Where a round from a position may end.

ghost use Rattle.std.specs.Prelude.{◌≡◌, ◌↔◌, ℕ, ◌≤◌, ◌<◌, length, IfOk};
ghost use Rattle.run_judging.specs.Paying.{Meets, Pays, PaysAll};

use crate::ahead::Ahead;
use observations::Fairness;
use st_memory::Memory;
use std::alloc::Global;

/// An end at `from` or later has to be at `until` or later.
fn demand(demands: &mut [usize], from: usize, until: usize)
    ensures { (l : ℕ) → l < length demands.old → (Meets demands.new l) ↔ (Meets demands.old l × (from ≤ l → until ≤ l)) }
{
    if from < demands.len() && demands[from] < until {
        demands[from] = until;
    }
}

/// What the end of a round owes to a name.
fn owe(demands: &mut [usize], fairness: Fairness, ahead: Ahead)
    ensures { (l : ℕ) → l < length demands.old → (Meets demands.new l) ↔ (Meets demands.old l × Pays fairness ahead l) }
{
    match fairness {
        Fairness::Unfair => {}
        Fairness::Just => demand(demands, 0, ahead.served.min(ahead.off)),
        Fairness::Compassionate => demand(demands, ahead.on, ahead.served),
    }
}

/// What it owes to all names.
fn owe_all(demands: &mut [usize], fairness: &[Fairness], aheads: &[Ahead])
    requires { length fairness.now ≡ length aheads.now }
    ensures { (l : ℕ) → l < length demands.old → (Meets demands.new l) ↔ (Meets demands.old l × PaysAll fairness.now aheads.now l) }
{
    for name in 0..fairness.len() {
        owe(demands, fairness[name], aheads[name]);
    }
}

/// What the end of a round from the position owes.
pub(crate) fn demands_from(
    alloc: Global,
    fairness: &[Fairness],
    aheads: &[Ahead],
    position: usize,
    never: usize,
) -> Result<Vec<usize>, Memory>
    requires same { length fairness.now ≡ length aheads.now }
    requires within { position < never }
    ensures long { IfOk result (λ demands. length demands.items ≡ never) }
    ensures meets { IfOk result (λ demands. (l : ℕ) → l < never → (Meets demands.items l) ↔ ((position < l) × PaysAll fairness.now aheads.now l)) }
{
    let mut demands = vec![in alloc; 0; never]?;
    demand(&mut demands, 0, position + 1);
    owe_all(&mut demands, fairness, aheads);
    Ok(demands)
}

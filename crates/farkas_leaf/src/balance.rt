//! Whether the sum of the picked multiples has no variable.

ghost use Rattle.std.specs.Prelude.{◌≡◌, ◌≢◌, ◌+◌, ◌<◌, ◌≤◌, ◌^◌, ◌↔◌, ℕ, IsTrue, All, IfSome, IfOk, IfErr, length, pos, unsigned_abs, []};
ghost use Rattle.st_linear.specs.Linear.{IsSlim, AreEntries};
ghost use Rattle.farkas_leaf.specs.Lines.{RiseWithin, coefficient, signed_picks, picked_sum};
ghost use Rattle.farkas_leaf.specs.Windows.{IsClear};

use crate::sums::add_up;
use crate::terms::{Constraint, Multiplier};
use crate::window::{are_zero, no_sums};

/// A variable has a coefficient that isn't 0 in the sum.
struct VariableLeft;

/// The first variable behind a window, in which each variable has the coefficient 0 in the sum.
fn behind_window<L: Constraint, M: Multiplier>(
    base: u64,
    lines: &[L],
    picks: &[(u32, M)],
) -> Result<Option<u64>, VariableLeft>
    requires base_bound { base < 2 ^ 33 }
    requires slim { All (λ l. IsSlim (L.line l).form) lines.now }
    requires multipliers { All (λ p. unsigned_abs (M.signed p.1) < 2 ^ 40) picks.now }
    requires few { length picks.now ≤ 4096 }
    requires rising { RiseWithin (length lines.now) 0 (signed_picks M.signed picks.now) }
    ensures within { IfOk result (λ next. (j : ℕ) → j < 64 → coefficient (base + j) (picked_sum L.line M.signed lines.now picks.now).entries ≡ pos 0) }
    ensures behind { IfOk result (λ next. IsClear (base + 64) next (λ v. coefficient v (picked_sum L.line M.signed lines.now picks.now).entries)) }
    ensures bound { IfOk result (λ next. IfSome next (λ v. v < 2 ^ 32)) }
    ensures kept { IfOk result (λ next. AreEntries (picked_sum L.line M.signed lines.now picks.now).entries) }
    ensures left { IfErr result (λ fault. (picked_sum L.line M.signed lines.now picks.now).entries ≢ []) }
{
    let mut sums = no_sums();
    let next = add_up(&mut sums, base, lines, picks);
    if are_zero(&sums) {
        Ok(next)
    } else {
        Err(VariableLeft)
    }
}

/// Whether the sum has no variable.
pub fn has_no_variable<L: Constraint, M: Multiplier>(lines: &[L], picks: &[(u32, M)]) -> bool
    requires slim { All (λ l. IsSlim (L.line l).form) lines.now }
    requires multipliers { All (λ p. unsigned_abs (M.signed p.1) < 2 ^ 40) picks.now }
    requires few { length picks.now ≤ 4096 }
    requires rising { RiseWithin (length lines.now) 0 (signed_picks M.signed picks.now) }
    ensures { IsTrue result ↔ ((picked_sum L.line M.signed lines.now picks.now).entries ≡ []) }
{
    let mut window = Some(0);
    while let Some(base) = window {
        match behind_window(base, lines, picks) {
            Ok(next) => window = next,
            Err(VariableLeft) => return false,
        }
    }
    true
}

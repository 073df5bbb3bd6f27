//! Leaves of either kind.

ghost use Rattle.std.specs.Prelude.{◌<◌, ◌≤◌, ◌^◌, ◌↔◌, IsTrue, All, length, map, unsigned_abs};
ghost use Rattle.st_linear.specs.Linear.{IsSlim};
ghost use Rattle.farkas_leaf.specs.Lines.{Closes, signed_picks};

use crate::balance::has_no_variable;
use crate::picks::are_admissible;
use crate::sums::constant_total;
use crate::terms::{Constraint, Multiplier};

/// Whether the picks are admissible and their sum is a negative constant.
pub fn closes<L: Constraint, M: Multiplier>(lines: &[L], picks: &[(u32, M)]) -> bool
    requires slim { All (λ l. IsSlim (L.line l).form) lines.now }
    requires multipliers { All (λ p. unsigned_abs (M.signed p.1) < 2 ^ 40) picks.now }
    requires few { length picks.now ≤ 4096 }
    ensures { IsTrue result ↔ Closes (map L.line lines.now) (signed_picks M.signed picks.now) }
{
    are_admissible(lines, picks)
        && constant_total(lines, picks) < 0
        && has_no_variable(lines, picks)
}

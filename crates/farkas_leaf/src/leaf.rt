//! Farkas leaves: sums of rows that have no solution.

ghost use Rattle.std.specs.Prelude.{◌<◌, ◌≤◌, ◌^◌, ◌↔◌, IsTrue, length, All};
ghost use Rattle.farkas_leaf.specs.Leaf.{Closes, HaveNoSolution};
ghost use Rattle.st_linear.specs.Linear.{IsSlim};

use crate::closing::closes;
use st_linear::Lin;

/// Whether row numbers rise and are in range, and the sum of the picked multiples is a negative constant. It takes no memory.
pub fn leaf_closes(rows: &[Lin], picks: &[(u32, u64)]) -> bool
    requires slim { All IsSlim rows.now }
    requires multipliers { All (λ p. p.1 < 2 ^ 40) picks.now }
    requires few { length picks.now ≤ 4096 }
    ensures exact { IsTrue result ↔ Closes rows.now picks.now }
    ensures sound { IsTrue result → HaveNoSolution rows.now }
{
    closes(rows, picks)
}

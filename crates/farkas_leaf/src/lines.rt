//! Linear leaves: sums of rows and equations that have no solution.

ghost use Rattle.std.specs.Prelude.{◌<◌, ◌≤◌, ◌^◌, ◌↔◌, IsTrue, length, map, All, unsigned_abs};
ghost use Rattle.farkas_leaf.specs.Lines.{Closes, HaveNoSolution};
ghost use Rattle.farkas_leaf.specs.Lent.{lent_line};
ghost use Rattle.st_linear.specs.Linear.{IsSlim};

use crate::closing::closes;
use crate::terms::LentLine;
use st_linear::Line;

/// Whether line numbers rise and are in range, no row has a negative multiplier, and the sum of the picked multiples is a negative
/// constant. It takes no memory.
pub fn linear_closes(lines: &[Line], picks: &[(u32, i64)]) -> bool
    requires slim { All (λ l. IsSlim l.form) lines.now }
    requires multipliers { All (λ p. unsigned_abs p.1 < 2 ^ 40) picks.now }
    requires few { length picks.now ≤ 4096 }
    ensures exact { IsTrue result ↔ Closes lines.now picks.now }
    ensures sound { IsTrue result → HaveNoSolution lines.now }
{
    closes(lines, picks)
}

/// The same of lines whose forms are lent.
pub fn lent_closes(lines: &[LentLine], picks: &[(u32, i64)]) -> bool
    requires slim { All (λ l. IsSlim l.form.now) lines.now }
    requires multipliers { All (λ p. unsigned_abs p.1 < 2 ^ 40) picks.now }
    requires few { length picks.now ≤ 4096 }
    ensures exact { IsTrue result ↔ Closes (map lent_line lines.now) picks.now }
    ensures sound { IsTrue result → HaveNoSolution (map lent_line lines.now) }
{
    closes(lines, picks)
}

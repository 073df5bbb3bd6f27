//! Which picks are admissible at all.

ghost use Rattle.std.specs.Prelude.{◌≡◌, ◌↔◌, ◌≤ℤ◌, IsTrue, false, length, map, pos};
ghost use Rattle.farkas_leaf.specs.Lines.{RiseWithin, IsSigned, signed_picks};

use crate::terms::{Constraint, Multiplier};

/// Whether line numbers rise and are in range, and no row has a negative multiplier.
pub fn are_admissible<L: Constraint, M: Multiplier>(lines: &[L], picks: &[(u32, M)]) -> bool
    ensures rising { IsTrue result → RiseWithin (length lines.now) 0 (signed_picks M.signed picks.now) }
    ensures exact { IsTrue result ↔ (RiseWithin (length lines.now) 0 (signed_picks M.signed picks.now) × IsSigned (map L.line lines.now) (signed_picks M.signed picks.now)) }
{
    let mut low: usize = 0;
    for p in picks {
        let number = p.0 as usize;
        if number < low || lines.len() <= number {
            return false;
        }
        if !has_sign(&lines[number], p.1) {
            return false;
        }
        low = number + 1;
    }
    true
}

fn has_sign<L: Constraint, M: Multiplier>(line: &L, by: M) -> bool
    ensures { IsTrue result ↔ ((L.line line.now).equal ≡ false → pos 0 ≤ℤ M.signed by) }
{
    line.is_equation() || by.number() >= 0
}

//! The sum of the picked multiples: its constant, and its coefficients over a window of variables. Each number stays within 128
//! bits, since 4,096 products of numbers below 2^70 and 2^40 sum to less than 2^123.

ghost use Rattle.std.specs.Prelude.{◌≡◌, ◌+◌, ◌<◌, ◌≤◌, ◌^◌, ◌+ℤ◌, ◌*ℤ◌, ℕ, All, IfSome, length, pos, unsigned_abs, slice_index_or};
ghost use Rattle.st_linear.specs.Linear.{IsSlim, AreEntries};
ghost use Rattle.farkas_leaf.specs.Lines.{RiseWithin, coefficient, signed_picks, picked_sum};
ghost use Rattle.farkas_leaf.specs.Windows.{IsClear};

use crate::terms::{Constraint, Multiplier};
use crate::window::{WIDTH, add_multiple, nearer, product};

/// The constant of the sum.
pub fn constant_total<L: Constraint, M: Multiplier>(lines: &[L], picks: &[(u32, M)]) -> i128
    requires slim { All (λ l. IsSlim (L.line l).form) lines.now }
    requires multipliers { All (λ p. unsigned_abs (M.signed p.1) < 2 ^ 40) picks.now }
    requires few { length picks.now ≤ 4096 }
    requires rising { RiseWithin (length lines.now) 0 (signed_picks M.signed picks.now) }
    ensures { result ≡ (picked_sum L.line M.signed lines.now picks.now).constant }
{
    let mut sum: i128 = 0;
    for p in picks {
        sum += scaled_constant(&lines[p.0 as usize], p.1);
    }
    sum
}

fn scaled_constant<L: Constraint, M: Multiplier>(line: &L, by: M) -> i128
    requires slim { IsSlim (L.line line.now).form }
    requires by_small { unsigned_abs (M.signed by) < 2 ^ 40 }
    ensures value { result ≡ (L.line line.now).form.constant *ℤ M.signed by }
    ensures size { unsigned_abs result ≤ 2 ^ 110 }
{
    product(&line.form().constant(), &by.number())
}

fn add_line<L: Constraint, M: Multiplier>(
    sums: &mut [i128; WIDTH],
    base: u64,
    line: &L,
    by: M,
) -> Option<u64>
    requires bounded { (j : ℕ) → j < 64 → unsigned_abs (slice_index_or sums.old j (pos 0)) ≤ 2 ^ 122 }
    requires base_bound { base < 2 ^ 33 }
    requires slim { IsSlim (L.line line.now).form }
    requires by_small { unsigned_abs (M.signed by) < 2 ^ 40 }
    ensures added { (j : ℕ) → j < 64 → slice_index_or sums.new j (pos 0) ≡ slice_index_or sums.old j (pos 0) +ℤ coefficient (base + j) (L.line line.now).form.entries *ℤ M.signed by }
    ensures behind { IsClear (base + 64) result (λ v. coefficient v (L.line line.now).form.entries) }
    ensures bound { IfSome result (λ v. v < 2 ^ 32) }
    ensures kept { AreEntries (L.line line.now).form.entries }
    ensures size { (v : ℕ) → unsigned_abs (coefficient v (L.line line.now).form.entries *ℤ M.signed by) ≤ 2 ^ 110 }
{
    add_multiple(sums, base, line.form().entries(), &by.number())
}

/// Adds the picked multiples up over a window, and answers the first variable behind it.
pub fn add_up<L: Constraint, M: Multiplier>(
    sums: &mut [i128; WIDTH],
    base: u64,
    lines: &[L],
    picks: &[(u32, M)],
) -> Option<u64>
    requires zero { (j : ℕ) → slice_index_or sums.old j (pos 0) ≡ pos 0 }
    requires base_bound { base < 2 ^ 33 }
    requires slim { All (λ l. IsSlim (L.line l).form) lines.now }
    requires multipliers { All (λ p. unsigned_abs (M.signed p.1) < 2 ^ 40) picks.now }
    requires few { length picks.now ≤ 4096 }
    requires rising { RiseWithin (length lines.now) 0 (signed_picks M.signed picks.now) }
    ensures added { (j : ℕ) → j < 64 → slice_index_or sums.new j (pos 0) ≡ coefficient (base + j) (picked_sum L.line M.signed lines.now picks.now).entries }
    ensures behind { IsClear (base + 64) result (λ v. coefficient v (picked_sum L.line M.signed lines.now picks.now).entries) }
    ensures bound { IfSome result (λ v. v < 2 ^ 32) }
    ensures kept { AreEntries (picked_sum L.line M.signed lines.now picks.now).entries }
{
    let mut next = None;
    for p in picks {
        next = nearer(next, add_line(sums, base, &lines[p.0 as usize], p.1));
    }
    next
}

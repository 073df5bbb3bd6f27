//! Running sums of coefficients over a window of 64 variables. They stand in a fixed table, so that adding up takes no memory and
//! goes over the picked entries once for each window that is touched; a problem's variables all lie in the first.

ghost use Rattle.std.specs.Prelude.{◌↔◌, IsTrue, ◌≡◌, ◌+◌, ◌<◌, ◌≤◌, ◌^◌, ℕ, All, IfSome, length, pos, ◌*ℤ◌, ◌+ℤ◌, unsigned_abs, slice_index_or};
ghost use Rattle.st_linear.specs.Linear.{AreEntries};
ghost use Rattle.farkas_leaf.specs.Lines.{coefficient};
ghost use Rattle.farkas_leaf.specs.Windows.{IsClear, nearer};

/// How many variables are summed in one pass. A program has at most as many.
pub const WIDTH: usize = 64;

/// A number times a multiplier.
pub fn product(number: &i128, by: &i128) -> i128
    requires slim { unsigned_abs number.now < 2 ^ 70 }
    requires by_small { unsigned_abs by.now < 2 ^ 40 }
    ensures value { result ≡ number.now *ℤ by.now }
    ensures size { unsigned_abs result ≤ 2 ^ 110 }
{
    *number * *by
}

/// A sum with a multiple of a coefficient.
pub fn sum_with(sum: &i128, coefficient: &i128, by: &i128) -> i128
    requires sum_bound { unsigned_abs sum.now ≤ 2 ^ 122 + 2 ^ 111 }
    requires slim { unsigned_abs coefficient.now < 2 ^ 70 }
    requires by_small { unsigned_abs by.now < 2 ^ 40 }
    ensures value { result ≡ sum.now +ℤ coefficient.now *ℤ by.now }
    ensures size { unsigned_abs result ≤ 2 ^ 122 + 2 ^ 112 }
{
    *sum + *coefficient * *by
}

/// Adds a multiple of the coefficients whose variables lie in the window, and answers the first variable behind the window.
pub fn add_multiple(
    sums: &mut [i128; WIDTH],
    base: u64,
    entries: &[(u32, i128)],
    by: &i128,
) -> Option<u64>
    requires bounded { (j : ℕ) → j < 64 → unsigned_abs (slice_index_or sums.old j (pos 0)) ≤ 2 ^ 122 }
    requires base_bound { base < 2 ^ 33 }
    requires slim { All (λ e. unsigned_abs e.1 < 2 ^ 70) entries.now }
    requires kept { AreEntries entries.now }
    requires by_small { unsigned_abs by.now < 2 ^ 40 }
    ensures added { (j : ℕ) → j < 64 → slice_index_or sums.new j (pos 0) ≡ slice_index_or sums.old j (pos 0) +ℤ coefficient (base + j) entries.now *ℤ by.now }
    ensures behind { IsClear (base + 64) result (λ v. coefficient v entries.now) }
    ensures bound { IfSome result (λ v. v < 2 ^ 32) }
{
    for e in entries {
        let variable = u64::from(e.0);
        if base + WIDTH as u64 <= variable {
            return Some(variable);
        }
        if variable < base {
            continue;
        }
        let place = (variable - base) as usize;
        sums[place] = sum_with(&sums[place], &e.1, by);
    }
    None
}

pub fn no_sums() -> [i128; WIDTH]
    ensures { (j : ℕ) → slice_index_or result j (pos 0) ≡ pos 0 }
{
    [0; WIDTH]
}

pub fn are_zero(sums: &[i128; WIDTH]) -> bool
    ensures { IsTrue result ↔ ((j : ℕ) → j < 64 → slice_index_or sums.now j (pos 0) ≡ pos 0) }
{
    for sum in sums {
        if *sum != 0 {
            return false;
        }
    }
    true
}

/// The lesser of two variables, where there are such.
pub fn nearer(a: Option<u64>, b: Option<u64>) -> Option<u64>
    ensures { result ≡ nearer a b }
{
    match a {
        None => b,
        Some(v) => match b {
            None => Some(v),
            Some(w) => if w < v { Some(w) } else { Some(v) },
        },
    }
}

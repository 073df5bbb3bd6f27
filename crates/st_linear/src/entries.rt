//! Lists of entries: a variable and its coefficient each, variables rising, no coefficient 0. A list of up to two entries stands
//! in the value itself and takes no memory.
//!
//! Two lists are added by a merge in the order of the variables, as sparse polynomials are (Knuth, The Art of Computer Programming,
//! volume 1, 1997, section 2.2.4). The loops stand here, over slices, and not in methods of the form.

ghost use Rattle.std.specs.Prelude.{◌≡◌, ◌<◌, ◌≤◌, ◌^◌, ◌++◌, [], IsTrue, IfOk, OnOk, IfErr, pos, length, false, map, neg_ℤ};
ghost use Rattle.st_linear.specs.Linear.{rise_from, are_small, are_within, entries_within, joined, with_entry, scaled_entries, AllBelow, AreEntries, evaluated, is_wide};
ghost use Rattle.st_linear.specs.Answers.{Gives};
ghost use Rattle.st_linear.specs.Simple.{common_divisor};
ghost use Rattle.std.specs.Int.{int_div_euclid};

use crate::faults::LinFault;
use crate::numbers::{
    LIMIT, floor_quotient, gcd, is_within, narrow_product, narrow_sum, negated_number,
    product_within, sum_within,
};
use smallvec::SmallVec;
use st_memory::Memory;
use std::alloc::Global;

/// Variables and their coefficients.
pub type Entries = SmallVec<(u32, i128), 2>;

/// Appends an entry, unless its coefficient is 0.
pub fn push_entry(out: &mut Entries, var: u32, coefficient: i128) -> Result<(), LinFault>
    ensures ok { OnOk result (out.new.items ≡ out.old.items ++ with_entry var coefficient []) }
    ensures err { IfErr result (λ fault. fault ≡ LinFault.Memory) }
{
    if coefficient != 0 {
        out.push((var, coefficient))?;
    }
    Ok(())
}

/// Whether variables rise, and the coefficients are small and not 0.
#[tactic(auto, unfolding(crate::specs::Linear::is_within))]
pub fn are_listed(entries: &[(u32, i128)]) -> bool
    ensures { result ≡ rise_from 0 entries.now }
{
    let mut low: u64 = 0;
    for e in entries {
        if u64::from(e.0) < low || e.1 == 0 || !is_within(LIMIT, e.1) {
            return false;
        }
        low = u64::from(e.0) + 1;
    }
    true
}

/// Adds two lists of entries by variable. `TooLarge` exactly where a coefficient of the sum isn't within the limit.
pub fn join(
    alloc: Global,
    limit: u128,
    xs: &[(u32, i128)],
    ys: &[(u32, i128)],
) -> Result<Entries, LinFault>
    requires narrow { limit ≤ 2 ^ 100 }
    requires positive { 0 < limit }
    requires xs_within { IsTrue (are_within limit xs.now) }
    requires ys_within { IsTrue (are_within limit ys.now) }
    ensures { Gives (λ v. v.items) result (entries_within limit (joined xs.now ys.now)) }
{
    let mut out = SmallVec::new(alloc);
    let mut i = 0;
    let mut j = 0;
    while i < xs.len() && j < ys.len() {
        let x = xs[i];
        let y = ys[j];
        if x.0 < y.0 {
            out.push(x)?;
            i += 1;
        } else if y.0 < x.0 {
            out.push(y)?;
            j += 1;
        } else {
            let sum = sum_within(limit, &x.1, &y.1)?;
            push_entry(&mut out, x.0, sum)?;
            i += 1;
            j += 1;
        }
    }
    out.extend_from_slice(&xs[i..])?;
    out.extend_from_slice(&ys[j..])?;
    Ok(out)
}

/// A multiple of the entries. `TooLarge` exactly where a coefficient of it isn't within the limit.
pub fn scale_entries(
    alloc: Global,
    limit: u128,
    entries: &[(u32, i128)],
    by: &i128,
) -> Result<Entries, LinFault>
    requires narrow { limit ≤ 2 ^ 100 }
    requires positive { 0 < limit }
    ensures { Gives (λ v. v.items) result (entries_within limit (scaled_entries by.now entries.now)) }
{
    let mut out = SmallVec::new(alloc);
    for e in entries {
        let coefficient = product_within(limit, &e.1, by)?;
        push_entry(&mut out, e.0, coefficient)?;
    }
    Ok(out)
}

/// The value of the entries on top of a number.
pub fn evaluate(values: &[i128], entries: &[(u32, i128)], constant: i128) -> Option<i128>
    requires all_below { AllBelow (length values.now) entries.now }
    requires narrow { is_wide constant ≡ false }
    ensures { result ≡ evaluated values.now entries.now constant }
{
    let mut sum = constant;
    for e in entries {
        let product = narrow_product(&e.1, &values[e.0 as usize])?;
        sum = narrow_sum(sum, product)?;
    }
    Some(sum)
}

/// The greatest number that divides each coefficient, or 1 where there is none.
pub fn divisor_of(entries: &[(u32, i128)]) -> u128
    requires { AreEntries entries.now }
    ensures { result ≡ common_divisor entries.now }
{
    let mut divisor: u128 = 0;
    for e in entries {
        divisor = gcd(divisor, e.1.unsigned_abs());
        // Most forms end here at their first entry.
        if divisor == 1 {
            return 1;
        }
    }
    if divisor == 0 { 1 } else { divisor }
}

/// The entries with each coefficient divided, and rounded down.
pub fn divide_entries(alloc: Global, entries: &[(u32, i128)], by: u128) -> Result<Entries, Memory>
    requires positive { 0 < by }
    requires bound { by < 2 ^ 100 }
    ensures { IfOk result
        (λ v. v.items ≡ map (λ e. (e.0, int_div_euclid e.1 (pos by))) entries.now) }
{
    let mut out = SmallVec::new(alloc);
    for e in entries {
        out.push((e.0, floor_quotient(e.1, by)))?;
    }
    Ok(out)
}

/// The entries with each coefficient's sign turned.
pub fn negate_entries(alloc: Global, entries: &[(u32, i128)]) -> Result<Entries, Memory>
    requires { IsTrue (are_small entries.now) }
    ensures { IfOk result (λ v. v.items ≡ map (λ e. (e.0, neg_ℤ e.1)) entries.now) }
{
    let mut out = SmallVec::new(alloc);
    for e in entries {
        out.push((e.0, negated_number(&e.1)))?;
    }
    Ok(out)
}

//! Sums of multiples of numbers and of lists of entries, in 64 bits.
//!
//! Two lists are added in one pass, by a merge in the order of the variables, as sparse polynomials are (Knuth, The Art of Computer
//! Programming, volume 1, 1997, section 2.2.4). Each coefficient is multiplied on the way, so no list of multiples is made.

ghost use Rattle.std.specs.Prelude.{◌≡◌, ◌≤◌, ◌^◌, ◌*ℤ◌, ◌++◌, [], Some, IsTrue, OnOk, IfOk};
ghost use Rattle.st_linear.specs.Linear.{is_within, are_within, with_entry, scaled_entries};
ghost use Rattle.elimination_laws.specs.Mixing.{mixed_number, mixed_entries};

use crate::row::Entries;
use crate::stop::Refusal;
use smallvec::SmallVec;
use std::alloc::Global;

/// A product within a limit.
#[tactic(auto, unfolding(st_linear::specs::Linear::is_within))]
fn product_within(limit: u64, x: &i64, by: &i64) -> Result<i64, Refusal>
    ensures value { IfOk result (λ z. z ≡ x.now *ℤ by.now) }
    ensures within { IfOk result (λ z. IsTrue (is_within limit z)) }
{
    match x.checked_mul(*by) {
        Some(product) => {
            if product.unsigned_abs() < limit {
                Ok(product)
            } else {
                Err(Refusal::Unfit)
            }
        }
        None => Err(Refusal::Unfit),
    }
}

/// x times one number and y times another.
#[tactic(auto, unfolding(st_linear::specs::Linear::is_within, elimination_laws::specs::Mixing::mixed_number))]
pub(crate) fn mix_number(limit: u64, x: &i64, a: &i64, y: &i64, b: &i64) -> Result<i64, Refusal>
    requires { limit ≤ 2 ^ 62 }
    ensures { IfOk result (λ z. mixed_number limit x.now a.now y.now b.now ≡ Some z) }
{
    let first = product_within(limit, a, x)?;
    let second = product_within(limit, b, y)?;
    let sum = first + second;
    if sum.unsigned_abs() < limit {
        Ok(sum)
    } else {
        Err(Refusal::Unfit)
    }
}

/// Appends an entry, unless its coefficient is 0.
fn push_entry(out: &mut Entries, var: u32, coefficient: i64) -> Result<(), Refusal>
    ensures { OnOk result (out.new.items ≡ out.old.items ++ with_entry var coefficient []) }
{
    if coefficient != 0 {
        out.push((var, coefficient))?;
    }
    Ok(())
}

/// Appends the multiples of a list of entries.
fn push_multiples(
    out: &mut Entries,
    limit: u64,
    by: &i64,
    entries: &[(u32, i64)],
) -> Result<(), Refusal>
    ensures value { OnOk result (out.new.items ≡ out.old.items ++ scaled_entries by.now entries.now) }
    ensures within { OnOk result (IsTrue (are_within limit (scaled_entries by.now entries.now))) }
{
    for e in entries {
        let coefficient = product_within(limit, &e.1, by)?;
        push_entry(out, e.0, coefficient)?;
    }
    Ok(())
}

/// x times one list of entries and y times another.
pub(crate) fn mix_entries(
    alloc: Global,
    limit: u64,
    x: &i64,
    xs: &[(u32, i64)],
    y: &i64,
    ys: &[(u32, i64)],
) -> Result<Entries, Refusal>
    requires { limit ≤ 2 ^ 62 }
    ensures { IfOk result (λ v. mixed_entries limit x.now xs.now y.now ys.now ≡ Some v.items) }
{
    let mut out = SmallVec::new(alloc);
    let mut i = 0;
    let mut j = 0;
    while i < xs.len() && j < ys.len() {
        let a = xs[i];
        let b = ys[j];
        // An entry of 0 makes none, and is passed before variables are compared.
        if a.1 == 0 {
            i += 1;
        } else if b.1 == 0 {
            j += 1;
        } else if a.0 < b.0 {
            let coefficient = product_within(limit, &a.1, x)?;
            push_entry(&mut out, a.0, coefficient)?;
            i += 1;
        } else if b.0 < a.0 {
            let coefficient = product_within(limit, &b.1, y)?;
            push_entry(&mut out, b.0, coefficient)?;
            j += 1;
        } else {
            let sum = mix_number(limit, x, &a.1, y, &b.1)?;
            push_entry(&mut out, a.0, sum)?;
            i += 1;
            j += 1;
        }
    }
    push_multiples(&mut out, limit, x, &xs[i..])?;
    push_multiples(&mut out, limit, y, &ys[j..])?;
    Ok(out)
}

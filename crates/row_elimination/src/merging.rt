//! Sums of multiples of numbers and of lists of entries, within limits.
//!
//! Two lists are added in one pass, by a merge in the order of the variables, as sparse polynomials are (Knuth, The Art of Computer
//! Programming, volume 1, 1997, section 2.2.4). Each coefficient is multiplied on the way, so no list of multiples is made.

ghost use Rattle.std.specs.Prelude.{◌<◌, ◌≤◌, ◌^◌, ◌*ℤ◌, ◌++◌, []};
ghost use Rattle.std.specs.Option.{option_map};
ghost use Rattle.st_linear.specs.Answers.{Gives};
ghost use Rattle.st_linear.specs.Linear.{number_within, entries_within, with_entry, scaled_entries};
ghost use Rattle.elimination_laws.specs.Mixing.{mixed_number, mixed_entries};

use smallvec::SmallVec;
use st_linear::{Entries, LinFault, product_within, push_entry, sum_within};
use std::alloc::Global;

/// x times one number and y times another.
#[tactic(auto, unfolding(elimination_laws::specs::Mixing::mixed_number))]
pub(crate) fn mix_number(
    limit: u128,
    x: &i128,
    a: &i128,
    y: &i128,
    b: &i128,
) -> Result<i128, LinFault>
    requires narrow { limit ≤ 2 ^ 100 }
    requires positive { 0 < limit }
    ensures { Gives (λ z. z) result (mixed_number limit x.now a.now y.now b.now) }
{
    let first = product_within(limit, a, x)?;
    let second = product_within(limit, b, y)?;
    sum_within(limit, &first, &second)
}

/// Appends a multiple of an entry, unless it comes to 0.
fn push_multiple(
    out: &mut Entries,
    limit: u128,
    by: &i128,
    entry: &(u32, i128),
) -> Result<(), LinFault>
    requires narrow { limit ≤ 2 ^ 100 }
    ensures { Gives (λ _. out.new.items) result (option_map (λ c. out.old.items ++ with_entry entry.now.0 c []) (number_within limit (entry.now.1 *ℤ by.now))) }
{
    let coefficient = product_within(limit, &entry.1, by)?;
    push_entry(out, entry.0, coefficient)
}

/// Appends the multiples of a list of entries.
fn push_multiples(
    out: &mut Entries,
    limit: u128,
    by: &i128,
    entries: &[(u32, i128)],
) -> Result<(), LinFault>
    requires narrow { limit ≤ 2 ^ 100 }
    requires positive { 0 < limit }
    ensures { Gives (λ _. out.new.items) result (option_map (λ es. out.old.items ++ es) (entries_within limit (scaled_entries by.now entries.now))) }
{
    for e in entries {
        push_multiple(out, limit, by, e)?;
    }
    Ok(())
}

/// x times one list of entries and y times another.
pub(crate) fn mix_entries(
    alloc: Global,
    limit: u128,
    x: &i128,
    xs: &[(u32, i128)],
    y: &i128,
    ys: &[(u32, i128)],
) -> Result<Entries, LinFault>
    requires narrow { limit ≤ 2 ^ 100 }
    requires positive { 0 < limit }
    ensures { Gives (λ v. v.items) result (mixed_entries limit x.now xs.now y.now ys.now) }
{
    // A variable that is eliminated stands in both lists, and not in the sum.
    let mut out = SmallVec::with_capacity(alloc, (xs.len() + ys.len()).saturating_sub(2))?;
    let mut i = 0;
    let mut j = 0;
    while i < xs.len() && j < ys.len() {
        let a = xs[i];
        let b = ys[j];
        // An entry of 0 makes none, and is passed before variables are compared.
        if a.1 == 0 {
            i += 1;
        } else if b.1 == 0 {
            j += 1;
        } else if a.0 < b.0 {
            push_multiple(&mut out, limit, x, &a)?;
            i += 1;
        } else if b.0 < a.0 {
            push_multiple(&mut out, limit, y, &b)?;
            j += 1;
        } else {
            let sum = mix_number(limit, x, &a.1, y, &b.1)?;
            push_entry(&mut out, a.0, sum)?;
            i += 1;
            j += 1;
        }
    }
    push_multiples(&mut out, limit, x, &xs[i..])?;
    push_multiples(&mut out, limit, y, &ys[j..])?;
    Ok(out)
}

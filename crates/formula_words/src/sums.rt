//! Sums as people write them.

use crate::vocabulary::Vocabulary;
use st_form::Lin;
use st_memory::Memory;
use std::alloc::Global;
use std::fmt::Write;

/// Appends a term, the sign left out: a coefficient of 1 isn't written.
fn push_term(out: &mut String, size: u128, name: &str) -> Result<(), Memory> {
    if size != 1 {
        write!(out, "{size}*")?;
    }
    out.push_str(name)?;
    Ok(())
}

/// Appends a term of a sum, with the sign in front of it. `begun` says whether something stands before it.
fn push_signed(out: &mut String, begun: bool, minus: bool) -> Result<(), Memory> {
    let sign = match (begun, minus) {
        (false, false) => "",
        (false, true) => "-",
        (true, false) => " + ",
        (true, true) => " - ",
    };
    out.push_str(sign)?;
    Ok(())
}

/// Appends a constant: it stands where it isn't 0, and where there is nothing else.
fn push_constant(out: &mut String, begun: bool, constant: &i128) -> Result<(), Memory> {
    if begun && *constant == 0 {
        return Ok(());
    }
    push_signed(out, begun, *constant < 0)?;
    write!(out, "{}", constant.unsigned_abs())?;
    Ok(())
}

/// A sum, the constant last.
pub fn sum(alloc: Global, words: &Vocabulary, sum: &Lin) -> Result<String, Memory> {
    let mut out = String::new(alloc);
    let mut begun = false;
    for entry in sum.entries() {
        push_signed(&mut out, begun, entry.1 < 0)?;
        push_term(&mut out, entry.1.unsigned_abs(), words.variable(entry.0))?;
        begun = true;
    }
    push_constant(&mut out, begun, &sum.constant())?;
    Ok(out)
}

/// Whether an entry has the sign that is asked for.
fn has_sign(entry: &(u32, i128), negative: bool) -> bool {
    (entry.1 < 0) == negative
}

/// The sum of the sizes of those entries that have a sign, and of a constant that isn't below 0.
pub(crate) fn side(
    alloc: Global,
    words: &Vocabulary,
    entries: &[(u32, i128)],
    negative: bool,
    constant: &i128,
) -> Result<String, Memory> {
    let mut out = String::new(alloc);
    let mut begun = false;
    for entry in entries {
        if has_sign(entry, negative) {
            push_signed(&mut out, begun, false)?;
            push_term(&mut out, entry.1.unsigned_abs(), words.variable(entry.0))?;
            begun = true;
        }
    }
    push_constant(&mut out, begun, constant)?;
    Ok(out)
}

/// Whether some entry has a sign.
pub(crate) fn has_side(entries: &[(u32, i128)], negative: bool) -> bool {
    for entry in entries {
        if has_sign(entry, negative) {
            return true;
        }
    }
    false
}

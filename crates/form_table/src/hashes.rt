//! Hashes of formulas.

use hint_index::{folded, line_mixed, mixed};
use st_form::Lin;

/// The hash of a literal: its kind, its number and its sign.
pub fn literal_hash(kind: u64, number: u32, plus: bool) -> u32 {
    folded(mixed(mixed(kind, u64::from(number)), u64::from(plus)))
}

/// The hash of a conjunction or a disjunction: its kind, and its parts by number.
pub fn parts_hash(kind: u64, parts: &[u32]) -> u32 {
    let mut hash = mixed(kind, 1);
    for part in parts {
        hash = mixed(hash, u64::from(*part));
    }
    folded(hash)
}

/// The hash of a row or an equation.
pub fn line_hash(kind: u64, form: &Lin) -> u32 {
    folded(line_mixed(kind, form))
}

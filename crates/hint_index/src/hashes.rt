//! Hashes: each word is mixed in by a multiplication whose high bits are folded into the low ones (as in Fibonacci
//! hashing: Knuth, The Art of Computer Programming, volume 3, 1998, section 6.4).

use st_linear::Lin;

const FACTOR: u64 = 0x9E37_79B9_7F4A_7C15;

/// A hash with a word more.
pub fn mixed(hash: u64, word: u64) -> u64 {
    let product = (hash ^ word).wrapping_mul(FACTOR);
    product ^ (product >> 32)
}

/// The low half of a hash.
pub fn folded(hash: u64) -> u32 {
    (hash & 0xFFFF_FFFF) as u32
}

/// A hash with a whole number more: its sign, and its low bits.
fn number_mixed(hash: u64, value: &i128) -> u64 {
    let low = (value.unsigned_abs() & 0xFFFF_FFFF_FFFF_FFFF) as u64;
    mixed(mixed(hash, u64::from(*value < 0)), low)
}

/// A hash with a linear form more.
pub fn line_mixed(hash: u64, form: &Lin) -> u64 {
    let mut hash = number_mixed(hash, &form.constant());
    for entry in form.entries() {
        hash = number_mixed(mixed(hash, u64::from(entry.0)), &entry.1);
    }
    hash
}

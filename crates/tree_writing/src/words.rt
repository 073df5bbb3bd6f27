//! What the text of a certificate is made of: words and numbers.

ghost use Rattle.std.specs.Prelude.{◌≡◌, ◌+◌, ◌<◌, ◌≤◌, ◌%◌, ◌++◌, ◌∷◌, [], OnOk, length, true, false};
ghost use Rattle.cert_text.specs.Spelling.{digits_in, decimal, int_text};

use st_memory::Memory;

/// The most bytes of a text of certificates.
pub(crate) const MOST: usize = 268_435_456;

/// Whether a text may be checked.
pub(crate) fn is_short(text: &[u8]) -> bool
    ensures yes { result ≡ true → length text.now ≤ 268435456 }
    ensures no { result ≡ false → 268435456 < length text.now }
{
    text.len() <= MOST
}

pub(crate) fn push_text(out: &mut Vec<u8>, text: &[u8]) -> Result<(), Memory>
    ensures { OnOk result (out.new.items ≡ out.old.items ++ text.now) }
{
    out.extend_from_slice(text)?;
    Ok(())
}

fn push_digit(out: &mut Vec<u8>, n: u64) -> Result<(), Memory>
    ensures { OnOk result (out.new.items ≡ out.old.items ++ (48 + n % 10) ∷ []) }
{
    out.push(48 + (n % 10) as u8)?;
    Ok(())
}

/// Appends the last `left` digits of a number and those that it needs.
#[tactic(auto, using(cert_text::proofs::Digits::digit_steps))]
fn push_digits(out: &mut Vec<u8>, left: u32, n: u64) -> Result<(), Memory>
    ensures { OnOk result (out.new.items ≡ out.old.items ++ digits_in left n) }
{
    if left == 0 {
        push_digit(out, n)
    } else if n < 10 {
        push_digit(out, n)
    } else {
        push_digits(out, left - 1, n / 10)?;
        push_digit(out, n)
    }
}

#[tactic(auto, unfolding(cert_text::specs::Spelling::decimal))]
pub(crate) fn push_number(out: &mut Vec<u8>, n: u64) -> Result<(), Memory>
    ensures { OnOk result (out.new.items ≡ out.old.items ++ decimal n) }
{
    push_digits(out, 39, n)
}

pub(crate) fn push_int(out: &mut Vec<u8>, n: &i64) -> Result<(), Memory>
    ensures { OnOk result (out.new.items ≡ out.old.items ++ int_text n.now) }
{
    if *n < 0 {
        push_text(out, b"-")?;
    }
    push_number(out, n.unsigned_abs())
}

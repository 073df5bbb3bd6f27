//! The words of a line.

ghost use Rattle.std.specs.Prelude.{◌≡◌, ◌+◌, ◌++◌, ◌∷◌, [], OnOk, codes};
ghost use Rattle.std.specs.Fmt.{decimal, signed_decimal};
ghost use Rattle.shared_certificates.specs.Grammar.{line_word, number_word, pick_word, term_word};

use itoa::Buffer;
use st_memory::Memory;

pub fn push_text(out: &mut Vec<u8>, text: &[u8]) -> Result<(), Memory>
    ensures { OnOk result (out.new.items ≡ out.old.items ++ text.now) }
{
    out.extend_from_slice(text)?;
    Ok(())
}

fn push_size(out: &mut Vec<u8>, number: u64) -> Result<(), Memory>
    ensures { OnOk result (out.new.items ≡ out.old.items ++ decimal number) }
{
    let mut buffer = Buffer::new();
    push_text(out, buffer.format(number).as_bytes())
}

fn push_signed(out: &mut Vec<u8>, number: &i64) -> Result<(), Memory>
    ensures { OnOk result (out.new.items ≡ out.old.items ++ signed_decimal number.now) }
{
    let mut buffer = Buffer::new();
    push_text(out, buffer.format(*number).as_bytes())
}

pub fn push_int(out: &mut Vec<u8>, number: &i128) -> Result<(), Memory>
    ensures { OnOk result (out.new.items ≡ out.old.items ++ signed_decimal number.now) }
{
    let mut buffer = Buffer::new();
    push_text(out, buffer.format(*number).as_bytes())
}

/// A number that counts from 0, as one that counts from 1.
pub fn push_number(out: &mut Vec<u8>, number: u32) -> Result<(), Memory>
    ensures { OnOk result (out.new.items ≡ out.old.items ++ number_word number) }
{
    push_size(out, u64::from(number) + 1)
}

pub fn push_pick(out: &mut Vec<u8>, pick: &(u32, u64)) -> Result<(), Memory>
    ensures { OnOk result (out.new.items ≡ out.old.items ++ pick_word pick.now) }
{
    push_number(out, pick.0)?;
    push_text(out, b"*")?;
    push_size(out, pick.1)
}

pub fn push_line(out: &mut Vec<u8>, line: &(u32, i64)) -> Result<(), Memory>
    ensures { OnOk result (out.new.items ≡ out.old.items ++ line_word line.now) }
{
    push_number(out, line.0)?;
    push_text(out, b"*")?;
    push_signed(out, &line.1)
}

pub fn push_term(out: &mut Vec<u8>, term: &(u32, i128)) -> Result<(), Memory>
    ensures { OnOk result (out.new.items ≡ out.old.items ++ term_word term.now) }
{
    push_int(out, &term.1)?;
    push_text(out, b":")?;
    push_number(out, term.0)
}

//! Parts of texts that stand once for each process.

ghost use Rattle.std.specs.Prelude.{◌≡◌, ◌+◌, ◌-◌, ◌≤◌, ◌<◌, ◌^◌, ◌++◌, OnOk, IfOk, string_bytes};
ghost use Rattle.std.specs.Fmt.{decimal};
ghost use Rattle.step_workload.specs.Parts.{filled, each_from, filled_unless};

use st_memory::Memory;
use std::alloc::Global;

fn decimal(alloc: Global, number: u32) -> Result<String, Memory>
    ensures { IfOk result (λ t. string_bytes t ≡ decimal number) }
{
    Ok(format!(in alloc; "{number}")?)
}

/// Appends a text.
pub fn push_text(out: &mut Vec<u8>, text: &[u8]) -> Result<(), Memory>
    ensures { OnOk result (out.new.items ≡ out.old.items ++ text.now) }
{
    out.extend_from_slice(text)?;
    Ok(())
}

/// Appends a number.
pub fn push_number(alloc: Global, out: &mut Vec<u8>, number: u32) -> Result<(), Memory>
    ensures { OnOk result (out.new.items ≡ out.old.items ++ decimal number) }
{
    let digits = decimal(alloc, number)?;
    push_text(out, digits.as_bytes())
}

/// Appends a part with the number in the place of each `#`.
pub fn push_filled(alloc: Global, out: &mut Vec<u8>, part: &[u8], number: u32) -> Result<(), Memory>
    ensures { OnOk result (out.new.items ≡ out.old.items ++ filled number part.now) }
{
    for byte in part {
        if *byte == b'#' {
            push_number(alloc, out, number)?;
        } else {
            out.push(*byte)?;
        }
    }
    Ok(())
}

/// Appends the part for each number from the first to the last.
pub fn push_each(
    alloc: Global,
    out: &mut Vec<u8>,
    part: &[u8],
    first: u32,
    last: u32,
) -> Result<(), Memory>
    requires first { first ≤ last + 1 }
    requires last { last < 2 ^ 31 }
    ensures { OnOk result (out.new.items ≡ out.old.items ++ each_from (λ i. filled i part.now) first (last + 1 - first)) }
{
    for number in first..last + 1 {
        push_filled(alloc, out, part, number)?;
    }
    Ok(())
}

/// Appends the part, unless its number is left out.
fn push_unless(
    alloc: Global,
    out: &mut Vec<u8>,
    part: &[u8],
    without: u32,
    number: u32,
) -> Result<(), Memory>
    ensures { OnOk result (out.new.items ≡ out.old.items ++ filled_unless without part.now number) }
{
    if number == without {
        return Ok(());
    }
    push_filled(alloc, out, part, number)
}

/// Appends the part for each number from 1 to the last but one that is left out.
pub fn push_others(
    alloc: Global,
    out: &mut Vec<u8>,
    part: &[u8],
    without: u32,
    last: u32,
) -> Result<(), Memory>
    requires { last < 2 ^ 31 }
    ensures { OnOk result (out.new.items ≡ out.old.items ++ each_from (filled_unless without part.now) 1 last) }
{
    for number in 1..last + 1 {
        push_unless(alloc, out, part, without, number)?;
    }
    Ok(())
}

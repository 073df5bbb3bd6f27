//! How a sum is printed.

ghost use Rattle.std.specs.Prelude.{◌≡◌, ◌++◌, length, OnOk, pos, unsigned_abs};
ghost use Rattle.step_report.specs.Sums.{first_sign, next_sign, times_text, term_text, more_terms, constant_text, terms_text, sum_text};

use crate::naming::push_variable;
use crate::pushing::{push_int, push_size, push_text};
use st_linear::Lin;
use st_memory::Memory;
use st_program::NameTable;

fn first_sign(number: &i128) -> &'static [u8]
    ensures { result.now ≡ first_sign number.now }
{
    if *number < 0 {
        b"-".as_slice()
    } else {
        b"".as_slice()
    }
}

fn next_sign(number: &i128) -> &'static [u8]
    ensures { result.now ≡ next_sign number.now }
{
    if *number < 0 {
        b" - ".as_slice()
    } else {
        b" + ".as_slice()
    }
}

/// How many times, unless it is once.
fn push_times(out: &mut Vec<u8>, number: u128) -> Result<(), Memory>
    ensures { OnOk result (out.new.items ≡ out.old.items ++ times_text number) }
{
    if number == 1 {
        return Ok(());
    }
    push_size(out, number)?;
    push_text(out, b"*")
}

/// A variable with its coefficient, the sign left out.
fn push_term(
    out: &mut Vec<u8>,
    names: &NameTable,
    variables: u32,
    entry: &(u32, i128),
) -> Result<(), Memory>
    requires { variables ≡ length names.now.variables }
    ensures { OnOk result (out.new.items ≡ out.old.items ++ term_text names.now entry.now) }
{
    push_times(out, entry.1.unsigned_abs())?;
    push_variable(out, names, variables, entry.0 as usize)
}

fn push_more_terms(
    out: &mut Vec<u8>,
    names: &NameTable,
    variables: u32,
    entries: &[(u32, i128)],
) -> Result<(), Memory>
    requires { variables ≡ length names.now.variables }
    ensures { OnOk result (out.new.items ≡ out.old.items ++ more_terms names.now entries.now) }
{
    for entry in entries {
        push_text(out, next_sign(&entry.1))?;
        push_term(out, names, variables, entry)?;
    }
    Ok(())
}

/// A constant behind variables.
fn push_constant(out: &mut Vec<u8>, constant: &i128) -> Result<(), Memory>
    ensures { OnOk result (out.new.items ≡ out.old.items ++ constant_text constant.now) }
{
    if *constant == 0 {
        return Ok(());
    }
    push_text(out, next_sign(constant))?;
    push_size(out, constant.unsigned_abs())
}

fn push_terms(
    out: &mut Vec<u8>,
    names: &NameTable,
    variables: u32,
    entries: &[(u32, i128)],
    constant: &i128,
) -> Result<(), Memory>
    requires { variables ≡ length names.now.variables }
    ensures { OnOk result (out.new.items ≡ out.old.items ++ terms_text names.now entries.now constant.now) }
{
    match entries.split_first() {
        None => push_int(out, constant),
        Some((first, more)) => {
            push_text(out, first_sign(&first.1))?;
            push_term(out, names, variables, first)?;
            push_more_terms(out, names, variables, more)?;
            push_constant(out, constant)
        }
    }
}

/// A sum over the program's variables, of which there are so many.
pub fn push_sum(
    out: &mut Vec<u8>,
    names: &NameTable,
    variables: u32,
    sum: &Lin,
) -> Result<(), Memory>
    requires { variables ≡ length names.now.variables }
    ensures { OnOk result (out.new.items ≡ out.old.items ++ sum_text names.now sum.now) }
{
    let constant = sum.constant();
    push_terms(out, names, variables, sum.entries(), &constant)
}

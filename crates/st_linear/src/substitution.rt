//! Linear forms in the place of variables. All listed variables are replaced at once: the sum begins with what stays, and the
//! multiples of the listed forms are added in the order of the form's own variables.

ghost use Rattle.std.specs.Prelude.{◌≡◌, IfOk};
ghost use Rattle.std.specs.Option.{option_copied};
ghost use Rattle.st_linear.specs.Linear.{form_for, kept_entries, with_listed, plus_scaled};
ghost use Rattle.st_linear.specs.Answers.{Gives};

use crate::entries::Entries;
use crate::faults::LinFault;
use crate::linear::Lin;
use smallvec::SmallVec;
use st_memory::Memory;
use std::alloc::Global;

/// The form that is listed for a variable.
pub fn form_for(numbers: &[(u32, Lin)], var: u32) -> Option<&Lin>
    ensures { option_copied result ≡ form_for var numbers.now }
{
    for pair in numbers {
        if pair.0 == var {
            return Some(&pair.1);
        }
    }
    None
}

/// The entries of the variables that are not listed.
pub fn kept_entries(
    alloc: Global,
    numbers: &[(u32, Lin)],
    entries: &[(u32, i128)],
) -> Result<Entries, Memory>
    ensures { IfOk result (λ v. v.items ≡ kept_entries numbers.now entries.now) }
{
    let mut out = SmallVec::new(alloc);
    for e in entries {
        if form_for(numbers, e.0).is_none() {
            out.push(*e)?;
        }
    }
    Ok(out)
}

/// Adds the multiples of the forms that are listed for the entries' variables.
pub fn add_listed(
    alloc: Global,
    numbers: &[(u32, Lin)],
    entries: &[(u32, i128)],
    start: Lin,
) -> Result<Lin, LinFault>
    ensures { Gives (λ f. f) result (with_listed numbers.now entries.now start) }
{
    let mut sum = start;
    for e in entries {
        if let Some(form) = form_for(numbers, e.0) {
            sum = add_scaled(alloc, sum, form, &e.1)?;
        }
    }
    Ok(sum)
}

fn add_scaled(alloc: Global, sum: Lin, form: &Lin, by: &i128) -> Result<Lin, LinFault>
    ensures { Gives (λ f. f) result (plus_scaled sum by.now form.now) }
{
    let product = form.scale(alloc, *by)?;
    sum.add(alloc, &product)
}

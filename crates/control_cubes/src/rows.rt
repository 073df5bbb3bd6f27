//! Rows: linear forms that are at least 0.

ghost use Rattle.std.specs.Prelude.{◌≡◌, IfOk};
ghost use Rattle.st_linear.specs.Simple.{common_divisor, complement, divided};

use crate::fault::CubeFault;
use st_linear::Lin;
use st_memory::Memory;
use std::alloc::Global;

/// The value of a linear form where each variable has the value with its number; `None` where it is too large, or a variable has no
/// value.
pub fn row_value(row: &Lin, numbers: &[i128]) -> Option<i128> {
    let mut sum = row.constant();
    for entry in row.entries() {
        let number = numbers.get(entry.0 as usize)?;
        sum = sum.checked_add(entry.1.checked_mul(*number)?)?;
    }
    Some(sum)
}

/// The row without a common divisor of its coefficients, its constant rounded down, which no whole value can tell from the row (the
/// cut of Gomory and Chvátal: Schrijver, Theory of Linear and Integer Programming, 1986, chapter 23).
pub fn tidy(alloc: Global, row: &Lin) -> Result<Lin, Memory>
    ensures { IfOk result (λ f. f ≡ divided (common_divisor row.now.entries) row.now) }
{
    row.divided(alloc, row.divisor())
}

/// The row that holds exactly where this one doesn't. `TooLarge` where its constant is of size 2^99 or more.
pub fn opposite(alloc: Global, row: &Lin) -> Result<Lin, CubeFault>
    ensures { IfOk result (λ f. f ≡ complement row.now) }
{
    if row.constant().unsigned_abs() >= 1 << 99 {
        return Err(CubeFault::TooLarge);
    }
    Ok(row.complement(alloc)?)
}

/// Whether the rows have the same variables with the same coefficients.
pub fn is_parallel(one: &Lin, other: &Lin) -> bool {
    one.entries() == other.entries()
}

//! Linear forms as they may be written.

ghost use Rattle.std.specs.Prelude.{◌≡◌, ◌^◌, nat_le, unsigned_abs, pos, negsuc, Ok};
ghost use Rattle.st_linear.specs.Answers as sums;
ghost use Rattle.st_linear.specs.Linear.{Linear, fitting, sum_of, scaled, number};
ghost use Rattle.st_linear.specs.Simple.{negated};
ghost use Rattle.expression_typer.specs.Answers.{Gives};
ghost use Rattle.st_program.specs.Groups.{are_written};
ghost use Rattle.expression_typer.specs.Written.{is_writable, limited, fitted, difference, lowered, product, is_constant};

use crate::fault::TypeFault;
use st_form::{Lin, LinFault};
use std::alloc::Global;

const WRITTEN: u128 = 1 << 30;

#[tactic(auto, unfolding(st_program::specs::Groups::is_written_number))]
fn are_written(entries: &[(u32, i128)]) -> bool
    ensures { result ≡ are_written entries.now }
{
    for e in entries {
        if e.1.unsigned_abs() > WRITTEN {
            return false;
        }
    }
    true
}

#[tactic(auto, unfolding(st_program::specs::Groups::is_written_number, crate::specs::Written::is_writable))]
fn is_writable(f: &Lin) -> bool
    ensures { result ≡ is_writable f.now }
{
    f.constant().unsigned_abs() <= WRITTEN && are_written(f.entries())
}

/// A sum or multiple, if its numbers may be written.
#[tactic(auto, using(crate::proofs::Limits::limits))]
fn limited(at: u64, sum: Result<Lin, LinFault>) -> Result<Lin, TypeFault>
    ensures { (x : Linear) → sums.Gives (λ f. f) sum (fitting x) → Gives (λ f. f) result (limited at x) }
{
    match sum {
        Ok(f) => {
            if is_writable(&f) {
                Ok(f)
            } else {
                Err(TypeFault::TooLarge(at))
            }
        }
        Err(LinFault::TooLarge) => Err(TypeFault::TooLarge(at)),
        Err(LinFault::Memory) => Err(TypeFault::Memory),
    }
}

/// The form, if its numbers may be written.
pub fn written(at: u64, form: Lin) -> Result<Lin, TypeFault>
    ensures { Gives (λ f. f) result (limited at form) }
{
    if is_writable(&form) {
        Ok(form)
    } else {
        Err(TypeFault::TooLarge(at))
    }
}

/// A sum or multiple, if it is a form.
fn fitted(at: u64, sum: Result<Lin, LinFault>) -> Result<Lin, TypeFault>
    ensures { (x : Linear) → sums.Gives (λ f. f) sum (fitting x) → Gives (λ f. f) result (fitted at x) }
{
    match sum {
        Ok(f) => Ok(f),
        Err(LinFault::TooLarge) => Err(TypeFault::TooLarge(at)),
        Err(LinFault::Memory) => Err(TypeFault::Memory),
    }
}

pub fn numeral(alloc: Global, n: u32) -> Result<Lin, TypeFault>
    ensures { Gives (λ f. f) result (limited 0 (number (pos n))) }
{
    limited(0, Lin::constant_of(alloc, n as i128))
}

pub fn negative(alloc: Global, at: u64, f: &Lin) -> Result<Lin, TypeFault>
    ensures { Gives (λ f. f) result (limited at (scaled (negsuc 0) f.now)) }
{
    limited(at, f.scale(alloc, -1))
}

pub fn sum(alloc: Global, at: u64, f: &Lin, g: &Lin) -> Result<Lin, TypeFault>
    ensures { Gives (λ f. f) result (limited at (sum_of f.now g.now)) }
{
    limited(at, f.add(alloc, g))
}

pub fn less(alloc: Global, at: u64, f: &Lin, g: &Lin) -> Result<Lin, TypeFault>
    ensures { Gives (λ f. f) result (limited at (sum_of f.now (negated g.now))) }
{
    let h = g.negated(alloc)?;
    limited(at, f.add(alloc, &h))
}

/// The difference that a comparison tests.
pub fn difference(alloc: Global, at: u64, f: &Lin, g: &Lin) -> Result<Lin, TypeFault>
    ensures { Gives (λ f. f) result (difference at f.now g.now) }
{
    let h = g.negated(alloc)?;
    fitted(at, f.add(alloc, &h))
}

/// One less than the difference.
pub fn lowered(alloc: Global, at: u64, f: &Lin, g: &Lin) -> Result<Lin, TypeFault>
    ensures { Gives (λ f. f) result (lowered at f.now g.now) }
{
    let h = difference(alloc, at, f, g)?;
    let one = fitted(at, Lin::constant_of(alloc, -1))?;
    fitted(at, h.add(alloc, &one))
}

pub fn product(alloc: Global, at: u64, f: &Lin, g: &Lin) -> Result<Lin, TypeFault>
    ensures { Gives (λ f. f) result (product at f.now g.now) }
{
    if f.entries().is_empty() {
        limited(at, g.scale(alloc, f.constant()))
    } else if g.entries().is_empty() {
        limited(at, f.scale(alloc, g.constant()))
    } else {
        Err(TypeFault::NonLinear(at))
    }
}

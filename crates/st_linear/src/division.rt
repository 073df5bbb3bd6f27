//! What simplification needs of linear forms over whole numbers: the greatest common divisor of the coefficients, division with the
//! constant rounded down (the cut of Gomory and Chvátal: Schrijver, Theory of Linear and Integer Programming, 1986, chapter 23),
//! and the form that is at least 0 exactly where another one isn't.

ghost use Rattle.std.specs.Prelude.{◌≡◌, ◌<◌, ◌^◌, IsTrue, IfOk, unsigned_abs};
ghost use Rattle.st_linear.specs.Simple.{divides_all, common_divisor, divided, complement, lowered, negated};

use crate::entries::{divide_entries, divisor_of, negate_entries};
use crate::linear::Lin;
use crate::numbers::{complement_number, floor_quotient, lowered_number, negated_number};
use smallvec::SmallVec;
use st_memory::Memory;
use std::alloc::Global;

impl Lin {
    /// The greatest number that divides each coefficient, or 1 where there is none.
    pub fn divisor(&self) -> u128
        ensures value { result ≡ common_divisor self.now.entries }
        ensures positive { 0 < result }
        ensures bound { result < 2 ^ 100 }
        ensures divides { IsTrue (divides_all result self.now.entries) }
    {
        divisor_of(self.entries.as_slice())
    }

    /// The form with each number divided, and rounded down.
    pub fn divided(&self, alloc: Global, by: u128) -> Result<Lin, Memory>
        requires positive { 0 < by }
        requires bound { by < 2 ^ 100 }
        requires divides { IsTrue (divides_all by self.now.entries) }
        ensures { IfOk result (λ f. f ≡ divided by self.now) }
    {
        // Most forms have coefficients without a common divisor.
        if by == 1 {
            return self.copy(alloc);
        }
        Ok(Lin {
            constant: floor_quotient(self.constant, by),
            entries: divide_entries(alloc, self.entries.as_slice(), by)?,
        })
    }

    /// The form that is at least 0 exactly where this one is not: its opposite less 1.
    pub fn complement(&self, alloc: Global) -> Result<Lin, Memory>
        requires { unsigned_abs self.now.constant < 2 ^ 99 }
        ensures { IfOk result (λ f. f ≡ complement self.now) }
    {
        Ok(Lin {
            constant: complement_number(&self.constant),
            entries: negate_entries(alloc, self.entries.as_slice())?,
        })
    }

    /// The form less 1.
    pub fn lowered(&self, alloc: Global) -> Result<Lin, Memory>
        requires { unsigned_abs self.now.constant < 2 ^ 99 }
        ensures { IfOk result (λ f. f ≡ lowered self.now) }
    {
        Ok(Lin {
            constant: lowered_number(&self.constant),
            entries: SmallVec::from_slice(alloc, self.entries.as_slice())?,
        })
    }

    /// The form times -1.
    pub fn negated(&self, alloc: Global) -> Result<Lin, Memory>
        ensures { IfOk result (λ f. f ≡ negated self.now) }
    {
        Ok(Lin {
            constant: negated_number(&self.constant),
            entries: negate_entries(alloc, self.entries.as_slice())?,
        })
    }
}

//! Sums, multiples and replacements of linear forms. Each has its value in every store, or is `TooLarge` exactly where a number of
//! it, or of a product or partial sum on the way, is of size 2^100 or more.

ghost use Rattle.std.specs.Prelude.{◌≡◌, IfOk, ◌+ℤ◌, ◌*ℤ◌, ℕ, ℤ};
ghost use Rattle.st_linear.specs.Linear.{fitting, value, sum_of, scaled, replaced, changed};
ghost use Rattle.st_linear.specs.Answers.{Gives};

use crate::entries::{join, scale_entries};
use crate::faults::LinFault;
use crate::linear::Lin;
use crate::numbers::{LIMIT, product_within, sum_within};
use crate::substitution::{add_listed, kept_entries};
use std::alloc::Global;

impl Lin {
    /// The sum of two forms.
    pub fn add(&self, alloc: Global, other: &Lin) -> Result<Lin, LinFault>
        ensures exact { Gives (λ f. f) result (fitting (sum_of self.now other.now)) }
        ensures value { IfOk result
            (λ f. (store : ℕ → ℤ) → value store f ≡ value store self.now +ℤ value store other.now) }
    {
        let constant = sum_within(LIMIT, &self.constant, &other.constant)?;
        let entries = join(
            alloc,
            LIMIT,
            self.entries.as_slice(),
            other.entries.as_slice(),
        )?;
        Ok(Lin { constant, entries })
    }

    /// A multiple of the form.
    pub fn scale(&self, alloc: Global, by: i128) -> Result<Lin, LinFault>
        ensures exact { Gives (λ f. f) result (fitting (scaled by self.now)) }
        ensures value { IfOk result (λ f. (store : ℕ → ℤ) → value store f ≡ value store self.now *ℤ by) }
    {
        let constant = product_within(LIMIT, &self.constant, &by)?;
        let entries = scale_entries(alloc, LIMIT, self.entries.as_slice(), &by)?;
        Ok(Lin { constant, entries })
    }

    /// The form with all listed variables replaced at once; where a variable is listed twice, the first counts. The partial sums
    /// begin with the constant and the entries of the other variables, and go through the replaced variables in rising order.
    pub fn replace(&self, alloc: Global, numbers: &[(u32, Lin)]) -> Result<Lin, LinFault>
        ensures exact { Gives (λ f. f) result (replaced numbers.now self.now) }
        ensures value { IfOk result
            (λ f. (store : ℕ → ℤ) → value store f ≡ value (changed store numbers.now) self.now) }
    {
        let start = Lin {
            constant: self.constant,
            entries: kept_entries(alloc, numbers, self.entries.as_slice())?,
        };
        add_listed(alloc, numbers, self.entries.as_slice(), start)
    }
}

//! Linear forms: a constant, and a coefficient that is not 0 for each of some variables, in the order of the variables.

ghost use Rattle.std.specs.Prelude.{◌≡◌, ◌↔◌, ◌≤ℤ◌, IsTrue, IfOk, IfSome, pos, length, int_le};
ghost use Rattle.std.specs.Option.{option_map};
ghost use Rattle.st_linear.specs.Linear.{of_entries, is_small, are_small, fitting, number, variable, value, valuation, AllBelow, AreEntries, evaluated};
ghost use Rattle.st_linear.specs.Answers.{Gives};

use crate::entries::{Entries, are_listed, evaluate};
use crate::faults::LinFault;
use crate::numbers::{LIMIT, is_within};
use smallvec::SmallVec;
use st_memory::Memory;
use std::alloc::Global;
use std::marker::Model;

/// A linear form. Variables rise, no coefficient is 0, and every number is below 2^100 in size.
#[derive(Drop)]
pub struct Lin {
    pub(crate) constant: i128,
    pub(crate) entries: Entries,
}

impl Model for Lin {
    ghost use Rattle.st_linear.specs.Linear.{Linear};

    ghost Value = { Linear };

    ghost view = { λ a. record { constant = a.constant; entries = a.entries.items } };

    ghost use Rattle.st_linear.specs.Linear.{IsLinear};

    ghost invariant = { λ a. IsLinear (record { constant = a.constant; entries = a.entries.items }) };
}

impl Lin {
    /// A number as a form. `TooLarge` exactly where its size is 2^100 or more.
    #[tactic(auto, unfolding(crate::specs::Linear::is_within, crate::specs::Linear::fitting))]
    pub fn constant_of(alloc: Global, value: i128) -> Result<Lin, LinFault>
        ensures { Gives (λ f. f) result (fitting (number value)) }
    {
        if is_within(LIMIT, value) {
            Ok(Lin {
                constant: value,
                entries: SmallVec::new(alloc),
            })
        } else {
            Err(LinFault::TooLarge)
        }
    }

    /// A variable as a form.
    pub fn variable(alloc: Global, var: u32) -> Result<Lin, Memory>
        ensures { IfOk result (λ f. f ≡ variable var) }
    {
        let mut entries = SmallVec::new(alloc);
        entries.push((var, 1))?;
        Ok(Lin {
            constant: 0,
            entries,
        })
    }

    /// The form with this constant and these entries, or `None` exactly where variables don't rise, a coefficient is 0, or a number
    /// is of size 2^100 or more.
    pub fn of_entries(
        alloc: Global,
        constant: i128,
        entries: &[(u32, i128)],
    ) -> Result<Option<Lin>, Memory>
        ensures exact { IfOk result (λ f. f ≡ of_entries constant entries.now) }
        ensures made { IfOk result (λ f. IfSome f (λ g. g ≡ record { constant = constant; entries = entries.now })) }
    {
        if is_within(LIMIT, constant) && are_listed(entries) {
            Ok(Some(Lin {
                constant,
                entries: SmallVec::from_slice(alloc, entries)?,
            }))
        } else {
            Ok(None)
        }
    }

    /// An equal form.
    pub fn copy(&self, alloc: Global) -> Result<Lin, Memory>
        ensures { IfOk result (λ f. f ≡ self.now) }
    {
        Ok(Lin {
            constant: self.constant,
            entries: SmallVec::from_slice(alloc, self.entries.as_slice())?,
        })
    }

    pub fn constant(&self) -> i128
        ensures value { result ≡ self.now.constant }
        ensures small { IsTrue (is_small self.now.constant) }
    {
        self.constant
    }

    /// The variables and their coefficients.
    pub fn entries(&self) -> &[(u32, i128)]
        ensures value { result.now ≡ self.now.entries }
        ensures kept { AreEntries self.now.entries }
        ensures small { IsTrue (are_small self.now.entries) }
    {
        self.entries.as_slice()
    }

    /// Whether the form is at least 0, where variable number k has the k-th value. `None` exactly where a product or a partial sum,
    /// constant first and then the entries in order, has size 2^126 or more. It takes no memory.
    pub fn holds(&self, values: &[i128]) -> Option<bool>
        requires { AllBelow (length values.now) self.now.entries }
        ensures exact { result ≡ option_map (λ z. int_le (pos 0) z) (evaluated values.now self.now.entries self.now.constant) }
        ensures value { IfSome result (λ yes. IsTrue yes ↔ (pos 0 ≤ℤ value (valuation values.now) self.now)) }
    {
        evaluate(values, self.entries.as_slice(), self.constant).map(|sum| sum >= 0)
    }
}

//! A row, and how it is freed from a column by another row: the step of an elimination without fractions (Bareiss, Sylvester's
//! identity and multistep integer-preserving Gaussian elimination, 1968, with the row's common factor divided out).

ghost use Rattle.std.specs.Prelude.{◌≡◌, ◌^◌, IsTrue, IfOk, pos, neg_ℤ};
ghost use Rattle.std.specs.Option.{option_map};
ghost use Rattle.st_linear.specs.Answers.{Gives};
ghost use Rattle.st_linear.specs.Linear.{is_within, are_within};
ghost use Rattle.elimination_laws.specs.Mixing.{part, mixed_entries};
ghost use Rattle.null_laws.specs.Reduction.{primitive, cleared};
ghost use Rattle.matrix_rows.specs.Rows.{IsKept};

use st_linear::{Lin, LinFault};
use st_memory::Memory;
use std::alloc::Global;
use std::marker::Model;

/// The coefficient of a column, 0 where it has no entry.
pub fn part(column: u32, entries: &[(u32, i128)]) -> i128
    requires { IsTrue (are_within (2 ^ 100) entries.now) }
    ensures value { result ≡ part column entries.now }
    ensures within { IsTrue (is_within (2 ^ 100) result) }
{
    for e in entries {
        if e.0 == column {
            return e.1;
        }
    }
    0
}

#[tactic(auto, unfolding(st_linear::specs::Linear::is_within))]
fn opposite(x: &i128) -> i128
    requires { IsTrue (is_within (2 ^ 100) x.now) }
    ensures { result ≡ neg_ℤ x.now }
{
    -*x
}

/// x times one form and y times another, both without a constant.
fn mix(alloc: Global, x: &i128, form: &Lin, y: &i128, other: &Lin) -> Result<Lin, LinFault>
    requires form { form.now.constant ≡ pos 0 }
    requires other { other.now.constant ≡ pos 0 }
    ensures value { Gives (λ f. f.entries) result (mixed_entries (2 ^ 100) x.now form.now.entries y.now other.now.entries) }
    ensures constant { IfOk result (λ f. f.constant ≡ pos 0) }
{
    let first = form.scale(alloc, *x)?;
    let second = other.scale(alloc, *y)?;
    first.add(alloc, &second)
}

/// A form without a constant, over the greatest common divisor of its coefficients.
fn primitive(alloc: Global, form: Lin) -> Result<Lin, Memory>
    requires { form.constant ≡ pos 0 }
    ensures value { IfOk result (λ f. f.entries ≡ primitive form.entries) }
    ensures constant { IfOk result (λ f. f.constant ≡ pos 0) }
{
    let divisor = form.divisor();
    // Most rows have entries without a common factor.
    if divisor == 1 {
        return Ok(form);
    }
    form.divided(alloc, divisor)
}

/// A row's form, freed from a column in which it has the entry and another row the pivot.
fn freed(alloc: Global, entry: &i128, form: &Lin, pivot: &i128, by: &Lin) -> Result<Lin, LinFault>
    requires entry { IsTrue (is_within (2 ^ 100) entry.now) }
    requires form { form.now.constant ≡ pos 0 }
    requires by { by.now.constant ≡ pos 0 }
    ensures value { Gives (λ f. f.entries) result
        (option_map primitive (mixed_entries (2 ^ 100) pivot.now form.now.entries (neg_ℤ entry.now) by.now.entries)) }
    ensures constant { IfOk result (λ f. f.constant ≡ pos 0) }
{
    let mixed = mix(alloc, pivot, form, &opposite(entry), by)?;
    Ok(primitive(alloc, mixed)?)
}

/// A row of a matrix: an entry for each of some columns, in rising order. No entry is 0, and each is below 2^100 in size.
#[derive(Drop)]
pub struct Row {
    form: Lin,
}

impl Model for Row {
    ghost use Rattle.std.specs.Prelude.{◌≡◌, ℕ, ℤ, List, pos};

    ghost Value = { List (ℕ × ℤ) };

    ghost view = { λ a. a.form.entries };

    ghost invariant = { λ a. a.form.constant ≡ pos 0 };
}

impl Row {
    /// A row of the given entries.
    pub fn new(alloc: Global, entries: &[(u32, i128)]) -> Result<Row, Memory>
        requires { IsKept entries.now }
        ensures { IfOk result (λ row. row ≡ entries.now) }
    {
        match Lin::of_entries(alloc, 0, entries)? {
            Some(form) => Ok(Row { form }),
            None => unreachable!(),
        }
    }

    pub fn entries(&self) -> &[(u32, i128)]
        ensures value { result.now ≡ self.now }
        ensures kept { IsKept self.now }
    {
        self.form.entries()
    }

    /// The entry in a column, 0 where there is none.
    pub fn at(&self, column: u32) -> i128
        ensures value { result ≡ part column self.now }
        ensures within { IsTrue (is_within (2 ^ 100) result) }
    {
        part(column, self.form.entries())
    }

    /// Frees the row from a column by another row that has an entry there. `TooLarge` exactly where an entry, or one of the two
    /// products that it is the difference of, comes to 2^100 or more in size.
    pub fn clear(&mut self, alloc: Global, column: u32, by: &Row) -> Result<(), LinFault>
        ensures { Gives (λ _. self.new) result (cleared column by.now self.old) }
    {
        let entry = self.at(column);
        if entry == 0 {
            return Ok(());
        }
        let pivot = by.at(column);
        self.form = freed(alloc, &entry, &self.form, &pivot, &by.form)?;
        Ok(())
    }
}

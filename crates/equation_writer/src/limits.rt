//! The limits of a formula, which are decided before it is made: at most 64 cases and 1,024 atoms, and no number past 2^30.

ghost use Rattle.std.specs.Prelude.{◌≡◌, ◌≤◌, ◌*◌, ◌^◌, IfOk, IsTrue, length, map};
ghost use Rattle.st_linear.specs.Linear.{is_small};
ghost use Rattle.equation_forms.specs.Formulas.{is_slight, are_slight, cases_slight};
ghost use Rattle.equation_writer.specs.Plain.{plain_terms, plain_case};
ghost use Rattle.equation_writer.specs.Sizes.{class_atoms, classes_atoms, are_few};
ghost use Rattle.equation_writer.specs.Sums.{AreModest};
ghost use Rattle.linear_invariants.specs.Plain.{plain_equation};

use crate::cases::Case;
use crate::classes::{Terms, classes};
use crate::sums::sum;
use linear_invariants::Equation;
use st_memory::Memory;
use std::alloc::Global;

/// The most cases, and the most atoms.
const CASES: u128 = 64;

const ATOMS: u128 = 1024;

/// The largest size of a written number.
const NUMBER: u128 = 1 << 30;

/// How many atoms say that control is in a class.
fn class_atoms(terms: &[(u32, i128)], class: &i128) -> usize
    ensures { result ≡ class_atoms terms.now class.now }
{
    if *class == 0 {
        return terms.len();
    }
    let mut count = 0;
    for t in terms {
        if t.1 == *class {
            count += 1;
        }
    }
    count
}

/// The same of all classes.
fn classes_atoms(terms: &[(u32, i128)], classes: &[i128]) -> u128
    requires { length classes.now ≤ 64 }
    ensures value { result ≡ classes_atoms terms.now classes.now }
    ensures most { result ≤ 64 * 2 ^ 64 }
{
    let mut count = 0u128;
    for class in classes {
        count += class_atoms(terms, class) as u128;
    }
    count
}

/// Whether there are few enough cases and atoms.
pub(crate) fn are_few(alloc: Global, groups: &[Terms]) -> Result<bool, Memory>
    ensures { IfOk result (λ few. few ≡ are_few (plain_terms groups.now)) }
{
    let mut cases = 1u128;
    let mut atoms = 1u128;
    let mut left = groups.len();
    while left > 0 {
        left -= 1;
        let terms = groups[left].as_slice();
        let classes = classes(alloc, terms)?;
        if classes.len() > CASES as usize {
            return Ok(false);
        }
        let count = classes.len() as u128;
        atoms = cases * classes_atoms(terms, &classes) + count * atoms;
        cases *= count;
        if cases > CASES {
            return Ok(false);
        }
        if atoms > ATOMS {
            return Ok(false);
        }
    }
    Ok(true)
}

fn is_slight(number: &i128) -> bool
    ensures { result ≡ is_slight number.now }
{
    number.unsigned_abs() <= NUMBER
}

fn are_slight(entries: &[(u32, i128)]) -> bool
    ensures { result ≡ are_slight entries.now }
{
    for e in entries {
        if !is_slight(&e.1) {
            return false;
        }
    }
    true
}

/// Whether the equation has such numbers in each case.
pub(crate) fn cases_slight(equation: &Equation, cases: &[Case]) -> bool
    requires constant { IsTrue (is_small equation.now.constant) }
    requires modest { AreModest (map plain_case cases.now) }
    ensures { result ≡ cases_slight (plain_equation equation.now) (map plain_case cases.now) }
{
    for case in cases {
        if !is_slight(&sum(&equation.constant, &case.sum)) {
            return false;
        }
        if !are_slight(&equation.numbers) {
            return false;
        }
    }
    true
}

//! Simplified literals, by number.

ghost use Rattle.std.specs.Prelude.{◌≡◌, ◌<◌, ◌^◌, IfOk, length, unsigned_abs, if◌then◌else◌};
ghost use Rattle.st_form.specs.Simple.{simple_row, simple_equal, simple_apart, leading};
ghost use Rattle.st_linear.specs.Simple.{complement};
ghost use Rattle.form_table.specs.Table.{Is, Extends, formula, settled};
ghost use Rattle.form_table.specs.Nodes.{formulas_in};

use crate::pools::{Pool, equal, join, row};
use crate::stores::Store;
use st_form::Lin;
use st_memory::Memory;
use std::alloc::Global;

/// A simplified row.
#[tactic(auto, using(crate::proofs::Making::growing))]
fn simple_row(alloc: Global, pool: &mut Pool, f: &Lin) -> Result<u32, Memory>
    ensures extends { Extends (formulas_in pool.old.store) (formulas_in pool.new.store) }
    ensures made { IfOk result (λ n. Is (formulas_in pool.new.store) n (simple_row f.now)) }
{
    if f.entries().is_empty() {
        return Ok(pool.store.truth(f.constant() >= 0));
    }
    let divisor = f.divisor();
    if divisor == 1 {
        return row(alloc, pool, f);
    }
    let reduced = f.divided(alloc, divisor)?;
    row(alloc, pool, &reduced)
}

/// A simplified row under a sign: where it is denied, its form is below 0.
#[tactic(auto, using(crate::proofs::Making::growing))]
pub fn signed_row(alloc: Global, pool: &mut Pool, f: &Lin, plus: bool) -> Result<u32, Memory>
    requires { unsigned_abs f.now.constant < 2 ^ 99 }
    ensures extends { Extends (formulas_in pool.old.store) (formulas_in pool.new.store) }
    ensures made { IfOk result (λ n. Is (formulas_in pool.new.store) n (simple_row (if plus then f.now else complement f.now))) }
{
    if plus {
        simple_row(alloc, pool, f)
    } else {
        let denied = f.complement(alloc)?;
        simple_row(alloc, pool, &denied)
    }
}

/// The form with its first coefficient above 0, which is 0 where the form is.
fn leading(alloc: Global, f: Lin) -> Result<Lin, Memory>
    ensures { IfOk result (λ g. g ≡ leading f) }
{
    match f.entries() {
        [first, ..] if first.1 < 0 => f.negated(alloc),
        _ => Ok(f),
    }
}

/// A simplified equation.
#[tactic(auto, using(crate::proofs::Making::growing))]
fn simple_equal(alloc: Global, pool: &mut Pool, f: &Lin) -> Result<u32, Memory>
    ensures extends { Extends (formulas_in pool.old.store) (formulas_in pool.new.store) }
    ensures made { IfOk result (λ n. Is (formulas_in pool.new.store) n (simple_equal f.now)) }
{
    if f.entries().is_empty() {
        return Ok(pool.store.truth(f.constant() == 0));
    }
    let divisor = f.divisor();
    if f.constant().unsigned_abs() % divisor != 0 {
        return Ok(pool.store.truth(false));
    }
    equal(alloc, pool, &leading(alloc, f.divided(alloc, divisor)?)?)
}

/// The simplified denial of an equation.
#[tactic(auto, using(crate::proofs::Making::growing))]
fn simple_apart(alloc: Global, pool: &mut Pool, f: &Lin) -> Result<u32, Memory>
    requires { unsigned_abs f.now.constant < 2 ^ 99 }
    ensures extends { Extends (formulas_in pool.old.store) (formulas_in pool.new.store) }
    ensures made { IfOk result (λ n. Is (formulas_in pool.new.store) n (simple_apart f.now)) }
{
    if f.entries().is_empty() {
        return Ok(pool.store.truth(f.constant() != 0));
    }
    let divisor = f.divisor();
    if f.constant().unsigned_abs() % divisor != 0 {
        return Ok(pool.store.truth(true));
    }
    let above = simple_row(alloc, pool, &f.lowered(alloc)?)?;
    let below = simple_row(alloc, pool, &f.complement(alloc)?)?;
    join(alloc, pool, false, &[above, below])
}

/// A simplified equation under a sign.
pub fn signed_equal(alloc: Global, pool: &mut Pool, f: &Lin, plus: bool) -> Result<u32, Memory>
    requires { unsigned_abs f.now.constant < 2 ^ 99 }
    ensures extends { Extends (formulas_in pool.old.store) (formulas_in pool.new.store) }
    ensures made { IfOk result (λ n. Is (formulas_in pool.new.store) n (if plus then simple_equal f.now else simple_apart f.now)) }
{
    if plus {
        simple_equal(alloc, pool, f)
    } else {
        simple_apart(alloc, pool, f)
    }
}

/// A literal's number, or that of its truth value where it is decided.
pub fn settled(store: &Store, number: u32, known: Option<bool>, plus: bool) -> u32
    requires { number < length (formulas_in store.now) }
    ensures { Is (formulas_in store.now) result (settled (formula (formulas_in store.now) number) plus known) }
{
    match known {
        Some(value) => store.truth(if plus { value } else { !value }),
        None => number,
    }
}

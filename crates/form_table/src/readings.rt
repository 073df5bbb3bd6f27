//! What shared formulas are when they are simplified, as far as it was found. Each hint and sign has a place, and what stands there
//! is compared before it is used, so nothing is asked of hints.

ghost use Rattle.std.specs.Prelude.{◌≡◌, [], List, IfOk, IfSome};
ghost use Rattle.st_form.specs.Formula.{Formula};
ghost use Rattle.st_form.specs.Plain.{plain};
ghost use Rattle.st_form.specs.Simple.{IsModest, nothing, simple};
ghost use Rattle.form_table.specs.Table.{Extends, Is};
ghost use Rattle.form_table.specs.Nodes.{formulas_in};
ghost use Rattle.form_table.specs.Memory.{AreRead, IsReading};

use crate::pools::Pool;
use crate::simplification::normal;
use st_form::{SharedForm, is_same};
use st_memory::Memory;
use std::alloc::Global;

/// How many places there are at most.
const MOST: usize = 1 << 20;

/// The number of a simplified formula under a sign.
#[derive(Drop)]
pub struct Reading {
    pub form: SharedForm,
    pub plus: bool,
    pub number: u32,
}

/// The readings, each at its place.
#[derive(Drop)]
pub struct Readings {
    pub entries: Vec<Option<Reading>>,
}

/// No readings.
pub fn no_readings(alloc: Global) -> Readings
    ensures { result.entries.items ≡ [] }
{
    Readings {
        entries: Vec::new(alloc),
    }
}

fn place_of(form: &SharedForm, plus: bool) -> usize {
    let first = form.hint() as usize * 2;
    if plus { first + 1 } else { first }
}

/// What is remembered of a formula under a sign.
fn recall(entries: &[Option<Reading>], form: &SharedForm, plus: bool) -> Option<u32>
    ensures { (ts : List Formula) → AreRead ts entries.now → IfSome result (λ n. Is ts n (simple nothing (plain form.now) plus)) }
{
    match entries.get(place_of(form, plus)) {
        None => None,
        Some(None) => None,
        Some(Some(reading)) => {
            if reading.plus == plus && is_same(reading.form.get(), form.get()) {
                return Some(reading.number);
            }
            None
        }
    }
}

/// Makes room up to a place.
fn widen(entries: &mut Vec<Option<Reading>>, place: usize) -> Result<(), Memory>
    ensures { (ts : List Formula) → AreRead ts entries.old.items → AreRead ts entries.new.items }
{
    for _ in entries.len()..=place {
        entries.push(None)?;
    }
    Ok(())
}

/// Remembers a reading in the place of another, where there is a place for it.
fn keep(readings: &mut Readings, reading: Reading) -> Result<(), Memory>
    ensures { (ts : List Formula) → AreRead ts readings.old.entries.items → IsReading ts reading → AreRead ts readings.new.entries.items }
{
    let place = place_of(&reading.form, reading.plus);
    if place < MOST {
        widen(&mut readings.entries, place)?;
        if let Some(entry) = readings.entries.get_mut(place) {
            *entry = Some(reading);
        }
    }
    Ok(())
}

/// The number of a shared formula simplified under a sign, with nothing decided.
pub fn read(
    alloc: Global,
    pool: &mut Pool,
    readings: &mut Readings,
    form: &SharedForm,
    plus: bool,
) -> Result<u32, Memory>
    requires modest { IsModest (plain form.now) }
    requires read { AreRead (formulas_in pool.old.store) readings.old.entries.items }
    ensures extends { Extends (formulas_in pool.old.store) (formulas_in pool.new.store) }
    ensures read { AreRead (formulas_in pool.new.store) readings.new.entries.items }
    ensures made { IfOk result (λ n. Is (formulas_in pool.new.store) n (simple nothing (plain form.now) plus)) }
{
    if let Some(number) = recall(readings.entries.as_slice(), form, plus) {
        return Ok(number);
    }
    let number = normal(alloc, pool, form.get(), plus)?;
    let form = form.share()?;
    keep(readings, Reading { form, plus, number })?;
    Ok(number)
}

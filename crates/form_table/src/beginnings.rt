//! The list of a condition's conjuncts: those of what is given and of the opposite of what is shown. Each shared formula is read
//! once, so the list is made by one pass over numbers.

ghost use Rattle.std.specs.Prelude.{◌≡◌, IfOk, map, true, false};
ghost use Rattle.st_form.specs.Formula.{every, formulas, more, none};
ghost use Rattle.st_form.specs.Plain.{plain, plain_list};
ghost use Rattle.st_form.specs.Shared.{case_of, consequent_of, together};
ghost use Rattle.st_form.specs.Simple.{AreModest, IsModest, gathered, nothing, simple, simples};
ghost use Rattle.form_table.specs.Table.{Extends, Is};
ghost use Rattle.form_table.specs.Nodes.{formulas_in};
ghost use Rattle.form_table.specs.Lists.{AllThere, IsListed, first_conjuncts, listed_in};
ghost use Rattle.form_table.specs.Memory.{AreRead};

use crate::parts::{gather, joined, take_part};
use crate::pools::{Pool, join};
use crate::readings::{Readings, read};
use st_form::{Consequent, SharedForm};
use st_memory::Memory;
use std::alloc::Global;

/// The gathered parts of the simplified formulas, or None where one of them decides.
fn gathered_forms(
    alloc: Global,
    pool: &mut Pool,
    readings: &mut Readings,
    forms: &[SharedForm],
    plus: bool,
    all: bool,
) -> Result<Option<Vec<u32>>, Memory>
    requires modest { AreModest (plain_list forms.now) }
    requires read { AreRead (formulas_in pool.old.store) readings.old.entries.items }
    ensures extends { Extends (formulas_in pool.old.store) (formulas_in pool.new.store) }
    ensures read { AreRead (formulas_in pool.new.store) readings.new.entries.items }
    ensures there { IfOk result (λ o. AllThere (formulas_in pool.new.store) o) }
    ensures made { IfOk result (λ o. listed_in (formulas_in pool.new.store) o ≡ gathered all (simples nothing (plain_list forms.now) plus)) }
{
    let mut out = Vec::with_capacity(alloc, forms.len())?;
    for form in forms {
        let part = read(alloc, pool, readings, form, plus)?;
        if !take_part(&pool.store, &mut out, all, part)? {
            return Ok(None);
        }
    }
    Ok(Some(out))
}

/// The simplified opposite of a case.
fn opposite(
    alloc: Global,
    pool: &mut Pool,
    readings: &mut Readings,
    parts: &[SharedForm],
) -> Result<u32, Memory>
    requires modest { IsModest (together (map plain parts.now)) }
    requires read { AreRead (formulas_in pool.old.store) readings.old.entries.items }
    ensures extends { Extends (formulas_in pool.old.store) (formulas_in pool.new.store) }
    ensures read { AreRead (formulas_in pool.new.store) readings.new.entries.items }
    ensures made { IfOk result (λ n. Is (formulas_in pool.new.store) n (simple nothing (together (map plain parts.now)) false)) }
{
    match parts {
        [] => Ok(pool.store.truth(false)),
        [only] => read(alloc, pool, readings, only, false),
        _ => {
            let gathered = gathered_forms(alloc, pool, readings, parts, false, false)?;
            joined(alloc, pool, gathered, false)
        }
    }
}

/// The gathered opposites of cases, or None where one of them is false.
fn gathered_cases(
    alloc: Global,
    pool: &mut Pool,
    readings: &mut Readings,
    cases: &[Vec<SharedForm>],
) -> Result<Option<Vec<u32>>, Memory>
    requires modest { AreModest (formulas (map case_of cases.now)) }
    requires read { AreRead (formulas_in pool.old.store) readings.old.entries.items }
    ensures extends { Extends (formulas_in pool.old.store) (formulas_in pool.new.store) }
    ensures read { AreRead (formulas_in pool.new.store) readings.new.entries.items }
    ensures there { IfOk result (λ o. AllThere (formulas_in pool.new.store) o) }
    ensures made { IfOk result (λ o. listed_in (formulas_in pool.new.store) o ≡ gathered true (simples nothing (formulas (map case_of cases.now)) false)) }
{
    let mut out = Vec::with_capacity(alloc, cases.len())?;
    for case in cases {
        let part = opposite(alloc, pool, readings, case.as_slice())?;
        if !take_part(&pool.store, &mut out, true, part)? {
            return Ok(None);
        }
    }
    Ok(Some(out))
}

/// The parts of the opposite of what is shown, or None where it is false.
fn denied(
    alloc: Global,
    pool: &mut Pool,
    readings: &mut Readings,
    shown: &Consequent,
) -> Result<Option<Vec<u32>>, Memory>
    requires modest { IsModest (consequent_of shown.now) }
    requires read { AreRead (formulas_in pool.old.store) readings.old.entries.items }
    ensures extends { Extends (formulas_in pool.old.store) (formulas_in pool.new.store) }
    ensures read { AreRead (formulas_in pool.new.store) readings.new.entries.items }
    ensures there { IfOk result (λ o. AllThere (formulas_in pool.new.store) o) }
    ensures made { IfOk result (λ o. listed_in (formulas_in pool.new.store) o ≡ gathered true (more (simple nothing (consequent_of shown.now) false) none)) }
{
    match shown {
        Consequent::One(form) => {
            let number = read(alloc, pool, readings, form, false)?;
            gather(alloc, &pool.store, &[number], true)
        }
        Consequent::Any(cases) => gathered_cases(alloc, pool, readings, cases.as_slice()),
    }
}

/// The list of a condition's conjuncts, or None where one of them is false.
pub fn first_list(
    alloc: Global,
    pool: &mut Pool,
    readings: &mut Readings,
    given: &[SharedForm],
    shown: &Consequent,
) -> Result<Option<u32>, Memory>
    requires given { AreModest (plain_list given.now) }
    requires shown { IsModest (consequent_of shown.now) }
    requires read { AreRead (formulas_in pool.old.store) readings.old.entries.items }
    ensures extends { Extends (formulas_in pool.old.store) (formulas_in pool.new.store) }
    ensures read { AreRead (formulas_in pool.new.store) readings.new.entries.items }
    ensures made { IfOk result (λ o. IsListed (formulas_in pool.new.store) o (first_conjuncts (every (plain_list given.now)) (consequent_of shown.now))) }
{
    let Some(mut out) = gathered_forms(alloc, pool, readings, given, true, true)? else {
        return Ok(None);
    };
    let Some(rest) = denied(alloc, pool, readings, shown)? else {
        return Ok(None);
    };
    out.extend_from_slice(rest.as_slice())?;
    let list = join(alloc, pool, true, out.as_slice())?;
    Ok(Some(list))
}

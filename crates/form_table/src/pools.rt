//! Formulas that are made once: before a formula is made, the index is asked whether there is an equal one.

ghost use Rattle.std.specs.Prelude.{IfOk, true};
ghost use Rattle.st_form.specs.Formula.{row, equal, bool_var, at};
ghost use Rattle.st_form.specs.Simple.{signed};
ghost use Rattle.search_laws.specs.Steady.{IsSteady};
ghost use Rattle.form_table.specs.Table.{Is, Extends, AreThere, joined, listed};
ghost use Rattle.form_table.specs.Nodes.{formulas_in};

use crate::hashes::{line_hash, literal_hash, parts_hash};
use crate::matching::{is_boolean, is_equal, is_joined, is_located, is_row};
use crate::stores::Store;
use hint_index::{Index, enter, hint, no_index};
use st_form::Lin;
use st_memory::Memory;
use std::alloc::Global;

/// Each kind's hashes begin with a word of its own (digits of pi), so that no small number takes one kind's to another's.
const BOOLEAN: u64 = 0x243F_6A88_85A3_08D3;

const LOCATED: u64 = 0x1319_8A2E_0370_7344;

const ROW: u64 = 0xA409_3822_299F_31D0;

const EQUAL: u64 = 0x082E_FA98_EC4E_6C89;

const ALL: u64 = 0x4528_21E6_38D0_1377;

const ANY: u64 = 0xBE54_66CF_34E9_0C6C;

/// A store, and an index of its formulas.
#[derive(Drop)]
pub struct Pool {
    pub store: Store,
    pub index: Index,
}

/// A pool of the two truth values.
pub fn new_pool(alloc: Global) -> Result<Pool, Memory> {
    let store = Store::new(alloc)?;
    let index = no_index(alloc);
    Ok(Pool { store, index })
}

/// A boolean variable under a sign.
pub fn boolean(alloc: Global, pool: &mut Pool, var: u32, plus: bool) -> Result<u32, Memory>
    ensures extends { Extends (formulas_in pool.old.store) (formulas_in pool.new.store) }
    ensures made { IfOk result (λ n. Is (formulas_in pool.new.store) n (signed plus (bool_var var))) }
{
    let hash = literal_hash(BOOLEAN, var, plus);
    let known = hint(pool.index.slots(), hash);
    if is_boolean(&pool.store, known, var, plus) {
        return Ok(known);
    }
    let number = pool.store.boolean(var, plus)?;
    enter(alloc, &mut pool.index, hash, number)?;
    Ok(number)
}

/// A location under a sign.
pub fn located(alloc: Global, pool: &mut Pool, location: u32, plus: bool) -> Result<u32, Memory>
    ensures extends { Extends (formulas_in pool.old.store) (formulas_in pool.new.store) }
    ensures made { IfOk result (λ n. Is (formulas_in pool.new.store) n (signed plus (at location))) }
{
    let hash = literal_hash(LOCATED, location, plus);
    let known = hint(pool.index.slots(), hash);
    if is_located(&pool.store, known, location, plus) {
        return Ok(known);
    }
    let number = pool.store.located(location, plus)?;
    enter(alloc, &mut pool.index, hash, number)?;
    Ok(number)
}

/// A reduced row, which is copied where it is new.
pub fn row(alloc: Global, pool: &mut Pool, f: &Lin) -> Result<u32, Memory>
    requires { IsSteady (row f.now) true }
    ensures extends { Extends (formulas_in pool.old.store) (formulas_in pool.new.store) }
    ensures made { IfOk result (λ n. Is (formulas_in pool.new.store) n (row f.now)) }
{
    let hash = line_hash(ROW, f);
    let known = hint(pool.index.slots(), hash);
    if is_row(&pool.store, known, f) {
        return Ok(known);
    }
    let copy = f.copy(alloc)?;
    let number = pool.store.row(copy)?;
    enter(alloc, &mut pool.index, hash, number)?;
    Ok(number)
}

/// A reduced equation, which is copied where it is new.
pub fn equal(alloc: Global, pool: &mut Pool, f: &Lin) -> Result<u32, Memory>
    requires { IsSteady (equal f.now) true }
    ensures extends { Extends (formulas_in pool.old.store) (formulas_in pool.new.store) }
    ensures made { IfOk result (λ n. Is (formulas_in pool.new.store) n (equal f.now)) }
{
    let hash = line_hash(EQUAL, f);
    let known = hint(pool.index.slots(), hash);
    if is_equal(&pool.store, known, f) {
        return Ok(known);
    }
    let copy = f.copy(alloc)?;
    let number = pool.store.equal(copy)?;
    enter(alloc, &mut pool.index, hash, number)?;
    Ok(number)
}

/// The conjunction (`all`) or disjunction of formulas that have numbers.
pub fn join(alloc: Global, pool: &mut Pool, all: bool, parts: &[u32]) -> Result<u32, Memory>
    requires { AreThere (formulas_in pool.old.store) parts.now }
    ensures extends { Extends (formulas_in pool.old.store) (formulas_in pool.new.store) }
    ensures made { IfOk result (λ n. Is (formulas_in pool.new.store) n (joined all (listed (formulas_in pool.old.store) parts.now))) }
{
    let hash = parts_hash(if all { ALL } else { ANY }, parts);
    let known = hint(pool.index.slots(), hash);
    if is_joined(&pool.store, known, all, parts) {
        return Ok(known);
    }
    let number = pool.store.join(all, parts)?;
    enter(alloc, &mut pool.index, hash, number)?;
    Ok(number)
}

//! Simplification of a condition's formulas straight into a pool.

ghost use Rattle.std.specs.Prelude.{◌≡◌, IfOk};
ghost use Rattle.st_form.specs.Plain.{plain, plain_list};
ghost use Rattle.st_form.specs.Simple.{IsModest, AreModest, simple, simples, gathered, joined_parts, nothing};
ghost use Rattle.form_table.specs.Table.{Is, Extends};
ghost use Rattle.form_table.specs.Nodes.{formulas_in};

use crate::literals::{signed_equal, signed_row};
use crate::parts::{closed, take_part};
use crate::pools::{Pool, boolean, located};
use st_form::Form;
use st_memory::Memory;
use std::alloc::Global;

/// The number of the simplified formula under a sign, with nothing decided.
#[cycle(normal)]
#[tactic(auto, using(st_form::proofs::Nodes::nodes, crate::proofs::Making::growing))]
pub fn normal(alloc: Global, pool: &mut Pool, f: &Form, plus: bool) -> Result<u32, Memory>
    requires { IsModest (plain f.now) }
    ensures extends { Extends (formulas_in pool.old.store) (formulas_in pool.new.store) }
    ensures made { IfOk result (λ n. Is (formulas_in pool.new.store) n (simple nothing (plain f.now) plus)) }
{
    match f {
        Form::True => Ok(pool.store.truth(plus)),
        Form::False => Ok(pool.store.truth(!plus)),
        Form::Row(f) => signed_row(alloc, pool, f, plus),
        Form::Equal(f) => signed_equal(alloc, pool, f, plus),
        Form::BoolVar(v) => boolean(alloc, pool, *v, plus),
        Form::At(l) => located(alloc, pool, *l, plus),
        Form::Not(f) => normal(alloc, pool, f, !plus),
        Form::And(fs) => normal_all(alloc, pool, fs, plus, plus),
        Form::Or(fs) => normal_all(alloc, pool, fs, plus, !plus),
    }
}

/// The conjunction (`all`) or disjunction of the simplified parts.
#[cycle(normal)]
#[tactic(auto, using(crate::proofs::Making::growing))]
fn normal_all(
    alloc: Global,
    pool: &mut Pool,
    fs: &[Form],
    plus: bool,
    all: bool,
) -> Result<u32, Memory>
    requires { AreModest (plain_list fs.now) }
    ensures extends { Extends (formulas_in pool.old.store) (formulas_in pool.new.store) }
    ensures made { IfOk result (λ n. Is (formulas_in pool.new.store) n
        (joined_parts all (gathered all (simples nothing (plain_list fs.now) plus)))) }
{
    let mut out = Vec::with_capacity(alloc, fs.len())?;
    for f in fs {
        let part = normal(alloc, pool, f, plus)?;
        if !take_part(&pool.store, &mut out, all, part)? {
            return Ok(pool.store.truth(!all));
        }
    }
    closed(alloc, pool, out.as_slice(), all)
}

//! Lists of conjuncts under further decisions.

ghost use Rattle.std.specs.Prelude.{◌≡◌, IfOk, true};
ghost use Rattle.st_form.specs.Simple.{gathered, simples};
ghost use Rattle.form_table.specs.Table.{Extends};
ghost use Rattle.form_table.specs.Nodes.{formulas_in};
ghost use Rattle.form_table.specs.Contents.{decision_at};
ghost use Rattle.form_table.specs.Lists.{IsList, IsListed, conjuncts_of};
ghost use Rattle.form_table.specs.Memory.{Remembers, choices};

use crate::choices::Decision;
use crate::conjuncts::conjuncts;
use crate::memos::Memo;
use crate::pools::{Pool, join};
use crate::refutations::is_refuted;
use crate::restriction::under_parts;
use st_memory::Memory;
use std::alloc::Global;

/// The list under a decision, or None where one of its conjuncts is false.
pub fn under_list(
    alloc: Global,
    pool: &mut Pool,
    memo: &mut Memo,
    decisions: &[Decision],
    decision: u32,
    list: u32,
) -> Result<Option<u32>, Memory>
    requires list { IsList (formulas_in pool.old.store) list }
    requires remembers { Remembers (formulas_in pool.old.store) (choices decisions.now) memo.old }
    ensures extends { Extends (formulas_in pool.old.store) (formulas_in pool.new.store) }
    ensures remembers { Remembers (formulas_in pool.new.store) (choices decisions.now) memo.new }
    ensures made { IfOk result (λ o. IsListed (formulas_in pool.new.store) o
        (gathered true (simples (decision_at (choices decisions.now) decision) (conjuncts_of (formulas_in pool.old.store) list) true))) }
{
    let lent = conjuncts(&pool.store, list);
    if is_refuted(&pool.store, decisions, decision, lent) {
        return Ok(None);
    }
    let parts = Vec::from_slice(alloc, lent)?;
    let gathered = under_parts(
        alloc,
        pool,
        memo,
        decisions,
        decision,
        list,
        parts.as_slice(),
        true,
    )?;
    match gathered {
        None => Ok(None),
        Some(out) => {
            let number = join(alloc, pool, true, out.as_slice())?;
            Ok(Some(number))
        }
    }
}

//! Lists with a row more.

ghost use Rattle.std.specs.Prelude.{◌≡◌, ◌<◌, ◌^◌, IfOk, true, unsigned_abs, if◌then◌else◌};
ghost use Rattle.std.specs.Option.{option_map};
ghost use Rattle.st_linear.specs.Simple.{complement};
ghost use Rattle.st_form.specs.Simple.{append, parts, simple_row};
ghost use Rattle.form_table.specs.Table.{Extends};
ghost use Rattle.form_table.specs.Nodes.{formulas_in};
ghost use Rattle.form_table.specs.Lists.{IsList, IsListed, conjuncts_of};

use crate::conjuncts::conjuncts;
use crate::literals::signed_row;
use crate::parts::take_part;
use crate::pools::{Pool, join};
use st_form::Lin;
use st_memory::Memory;
use std::alloc::Global;

/// The list with a simplified row at its end, or with its complement where the sign is minus; None where that is false.
pub fn with_row(
    alloc: Global,
    pool: &mut Pool,
    list: u32,
    f: &Lin,
    plus: bool,
) -> Result<Option<u32>, Memory>
    requires list { IsList (formulas_in pool.old.store) list }
    requires small { unsigned_abs f.now.constant < 2 ^ 99 }
    ensures extends { Extends (formulas_in pool.old.store) (formulas_in pool.new.store) }
    ensures made { IfOk result (λ o. IsListed (formulas_in pool.new.store) o
        (option_map (append (conjuncts_of (formulas_in pool.old.store) list)) (parts true (simple_row (if plus then f.now else complement f.now))))) }
{
    let mut out = Vec::from_slice(alloc, conjuncts(&pool.store, list))?;
    let row = signed_row(alloc, pool, f, plus)?;
    if !take_part(&pool.store, &mut out, true, row)? {
        return Ok(None);
    }
    let number = join(alloc, pool, true, out.as_slice())?;
    Ok(Some(number))
}

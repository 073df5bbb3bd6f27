//! The beginning of a program, and of the children of a cooperation.

ghost use Rattle.std.specs.Prelude.{◌≡◌, ◌<◌, ◌+◌, ◌^◌, IfOk, length};
ghost use Rattle.st_program.specs.Plain.{plain_children};
ghost use Rattle.st_program.specs.Residuals.{plain_residuals};
ghost use Rattle.st_program.specs.Spots.{bodies_of};
ghost use Rattle.spl_semantics.specs.Going as going;
ghost use Rattle.spl_semantics.specs.Runs as runs;
ghost use Rattle.spl_semantics.specs.Data.{store_of, StoreFits};
ghost use Rattle.spl_semantics.specs.Plain.{plain_state};

use crate::components::count_along;
use crate::surgery::join;
use st_memory::Memory;
use st_program::{Child, Datum, Program, Residual, State};
use std::alloc::Global;

/// Each child at the beginning of its body; `component` is the number of the first one's body.
pub fn begin(alloc: Global, children: &[Child], component: u32) -> Result<Vec<Residual>, Memory>
    ensures { component + length (bodies_of (plain_children children.now)) < 2 ^ 32
        → IfOk result (λ v. plain_residuals v.items ≡ going.begin (plain_children children.now) component) }
{
    let mut residuals = Vec::new(alloc);
    let mut number = component;
    for child in children {
        residuals.push(join(alloc, &child.body, Residual::Done, number, 0)?)?;
        number = number
            .saturating_add(1)
            .saturating_add(count_along(&child.body));
    }
    Ok(residuals)
}

/// The state in which all processes are at their beginning, with this store, which has a datum of its type for each variable.
pub fn start(alloc: Global, program: &Program, store: Vec<Datum>) -> Result<State, Memory>
    requires store { StoreFits program.now.variables store.items }
    ensures state { IfOk result (λ s. plain_state s ≡ runs.start (plain_children program.now.processes) (store_of store.items)) }
    ensures fits { IfOk result (λ s. StoreFits program.now.variables s.store.items) }
{
    Ok(State {
        residuals: begin(alloc, &program.processes, program.statements)?,
        store,
    })
}

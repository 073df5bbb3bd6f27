//! What follows a step: it changes the front of what is left, and what stands round the front is put on again.

ghost use Rattle.std.specs.Prelude.{◌≡◌, ◌<◌, ◌+◌, ◌^◌, IfOk, length, map};
ghost use Rattle.st_program.specs.Plain.{plain_stmts};
ghost use Rattle.st_program.specs.Residuals.{Again, plain_residual, plain_residuals};
ghost use Rattle.st_program.specs.Tree.{nth};
ghost use Rattle.spl_semantics.specs.Going as going;
ghost use Rattle.spl_semantics.specs.Data.{is_done};
ghost use Rattle.spl_semantics.specs.Plain.{plain_acts, act_stores};

use crate::acts::Act;
use st_memory::Memory;
use st_program::{Residual, Stmt};
use std::alloc::Global;

/// Whether nothing is left.
fn is_done(residual: &Residual) -> bool
    ensures { result ≡ is_done (plain_residual residual.now) }
{
    match residual {
        Residual::Done => true,
        Residual::Run(_) => false,
        Residual::Then { .. } => false,
        Residual::Again { .. } => false,
        Residual::Inside { .. } => false,
    }
}

/// The first part, and then the block from a statement on, if it has it.
fn behind(
    alloc: Global,
    items: &[Stmt],
    first: Residual,
    block: u32,
    from: u32,
) -> Result<Residual, Memory>
    ensures { IfOk result
        (λ r. plain_residual r ≡ going.behind (nth (plain_stmts items.now) from) (plain_residual first) block from) }
{
    if (from as usize) < items.len() {
        Ok(Residual::Then {
            first: Box::new(alloc, first)?,
            block,
            from,
        })
    } else {
        Ok(first)
    }
}

/// What is left of a part, and then the block, which has these statements, from a statement on.
pub fn join(
    alloc: Global,
    items: &[Stmt],
    first: Residual,
    block: u32,
    from: u32,
) -> Result<Residual, Memory>
    requires { from < length items.now → from + 1 < 2 ^ 32 }
    ensures { IfOk result
        (λ r. plain_residual r ≡ going.join (plain_stmts items.now) (plain_residual first) block from) }
{
    if !is_done(&first) {
        return behind(alloc, items, first, block, from);
    }
    if (from as usize) < items.len() {
        let next = Residual::Run(items[from as usize].occ);
        behind(alloc, items, next, block, from + 1)
    } else {
        Ok(Residual::Done)
    }
}

/// A loop's body, and then the loop.
pub fn again(alloc: Global, body: Residual, loop_occ: u32) -> Result<Residual, Memory>
    ensures { IfOk result (λ r. plain_residual r ≡ Again (plain_residual body) loop_occ) }
{
    Ok(Residual::Again {
        body: Box::new(alloc, body)?,
        loop_occ,
    })
}

/// What is left of a loop's body, and then the loop.
fn back(alloc: Global, body: Residual, loop_occ: u32) -> Result<Residual, Memory>
    ensures { IfOk result (λ r. plain_residual r ≡ going.back loop_occ (plain_residual body)) }
{
    if is_done(&body) {
        Ok(Residual::Run(loop_occ))
    } else {
        again(alloc, body, loop_occ)
    }
}

/// The steps of a part, as steps of the part and the block behind it.
pub fn join_all(
    alloc: Global,
    items: &[Stmt],
    acts: Vec<Act>,
    block: u32,
    from: u32,
) -> Result<Vec<Act>, Memory>
    requires { from < length items.now → from + 1 < 2 ^ 32 }
    ensures steps { IfOk result (λ v. plain_acts v.items
        ≡ map (going.around (λ r. going.join (plain_stmts items.now) r block from)) (plain_acts acts.items)) }
    ensures stores { IfOk result (λ v. act_stores v.items ≡ act_stores acts.items) }
{
    let mut all = Vec::new(alloc);
    for act in acts {
        let Act {
            name,
            mode,
            left,
            store,
        } = act;
        let left = join(alloc, items, left, block, from)?;
        all.push(Act {
            name,
            mode,
            left,
            store,
        })?;
    }
    Ok(all)
}

/// The steps of a loop's body, as steps of the loop.
pub fn back_all(alloc: Global, acts: Vec<Act>, loop_occ: u32) -> Result<Vec<Act>, Memory>
    ensures steps { IfOk result (λ v. plain_acts v.items ≡ map (going.around (going.back loop_occ)) (plain_acts acts.items)) }
    ensures stores { IfOk result (λ v. act_stores v.items ≡ act_stores acts.items) }
{
    let mut all = Vec::new(alloc);
    for act in acts {
        let Act {
            name,
            mode,
            left,
            store,
        } = act;
        let left = back(alloc, left, loop_occ)?;
        all.push(Act {
            name,
            mode,
            left,
            store,
        })?;
    }
    Ok(all)
}

/// Whether nothing is left of any of these.
pub fn all_done(residuals: &[Residual]) -> bool
    ensures { result ≡ going.all_done (plain_residuals residuals.now) }
{
    for residual in residuals {
        if !is_done(residual) {
            return false;
        }
    }
    true
}

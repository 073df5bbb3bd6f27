//! What is asked of the search before a warning is given.

ghost use Rattle.std.specs.Prelude.{IfOk, IfSome};
ghost use Rattle.posed_conditions.specs.Translated.{IsTranslated};
ghost use Rattle.posed_conditions.specs.Posed.{IsPosed};

use open_conditions::{Undecided, open_conditions};
use posed_conditions::{PosedProof, PosingFault, pose};
use st_memory::Memory;
use st_outside::OpenGate;
use std::alloc::Global;

/// What a program and a proof pose; `None` where one of them is refused.
pub(crate) fn posed(
    alloc: Global,
    program: &[u8],
    proof: &[u8],
) -> Result<Option<PosedProof>, Memory>
    ensures { IfOk result (λ o. IfSome o (λ p. IsTranslated p.source × IsPosed p.source p.proof)) }
{
    match pose(alloc, program, proof) {
        Ok(posed) => Ok(Some(posed)),
        Err(PosingFault::Memory) => Err(Memory),
        Err(_) => Ok(None),
    }
}

/// The conditions that aren't decided valid.
pub(crate) fn open_of(alloc: Global, posed: &PosedProof) -> Result<Vec<Undecided>, Memory>
    requires translated { IsTranslated posed.now.source }
    requires posed { IsPosed posed.now.source posed.now.proof }
{
    let source = &posed.source;
    let variables = source.program.variables.as_slice();
    open_conditions(
        alloc,
        &OpenGate,
        &source.components,
        variables,
        &posed.proof.conditions,
    )
}

//! Two texts at once.

ghost use Rattle.std.specs.Prelude.{IfOk, IfErr};
ghost use Rattle.posed_conditions.specs.Translated.{IsOfText};
ghost use Rattle.posed_conditions.specs.Posed.{IsPosedBy};
ghost use Rattle.posed_conditions.specs.Refused.{RefusesTexts};

use crate::faults::PosingFault;
use crate::scripts::{PosedScript, pose_script};
use crate::translated::{TranslatedProgram, translate_text};
use std::alloc::Global;

/// A program, a script over it, and the script's conditions.
#[derive(Drop)]
pub struct PosedProof {
    pub source: TranslatedProgram,
    pub proof: PosedScript,
}

/// The program that one text spells, the script that another spells over it, and its conditions.
///
/// # Errors
///
/// Those of [`translate_text`], and then those of [`pose_script`].
pub fn pose(alloc: Global, program: &[u8], proof: &[u8]) -> Result<PosedProof, PosingFault>
    ensures made { IfOk result (λ p. IsOfText program.now p.source × IsPosedBy proof.now p.source p.proof) }
    ensures refused { IfErr result (RefusesTexts program.now proof.now) }
{
    let source = translate_text(alloc, program)?;
    match pose_script(alloc, &source, proof) {
        Ok(proof) => Ok(PosedProof { source, proof }),
        Err(fault) => Err(fault),
    }
}

//! `conditions`: the conditions of a proof for other eyes, as text or as problems for other solvers.

ghost use Rattle.posed_conditions.specs.Translated.{IsTranslated};

use crate::given::Given;
use crate::streams::write_result;
use crate::trouble::Trouble;
use condition_exports::{ExportFault, condition_list, listed, smt_problems};
use milkhour_run::Status;
use milkhour_words::Options;
use posed_conditions::{PosedProof, PosingFault, pose};
use std::alloc::Global;
use std::rt::Runtime;
use text_words::text_words;

/// The conditions that are wanted, in sentences and formulas.
fn listing(
    alloc: Global,
    posed: &PosedProof,
    program: &[u8],
    only: Option<&str>,
) -> Result<String, ExportFault>
    requires { IsTranslated posed.now.source }
{
    let words = text_words(alloc, &posed.source, program)?;
    let list = condition_list(alloc, posed, &words, only)?;
    Ok(listed(alloc, &list)?)
}

fn no_such(alloc: Global, only: Option<&str>) -> Trouble {
    match format!(in alloc;
        "there is no condition '{}'; without --only all are listed",
        only.unwrap_or("")
    ) {
        Ok(text) => Trouble::Words(text),
        Err(_) => Trouble::Memory,
    }
}

/// The conditions that are wanted, as text or as problems in SMT-LIB 2.
fn exported(
    alloc: Global,
    posed: &PosedProof,
    program: &[u8],
    options: &Options<'_>,
) -> Result<String, Trouble>
    requires { IsTranslated posed.now.source }
{
    let exported = if options.smt {
        smt_problems(alloc, posed, options.only)
    } else {
        listing(alloc, posed, program, options.only)
    };
    match exported {
        Ok(text) => Ok(text),
        Err(ExportFault::NoSuchCondition) => Err(no_such(alloc, options.only)),
        Err(_) => Err(Trouble::Memory),
    }
}

/// Writes the conditions of a proof. `None` where the texts are refused.
pub fn list_conditions<R: Runtime + AllocGlobal>(
    rt: &R,
    given: &Given<'_>,
    options: &Options<'_>,
) -> Result<Option<u8>, Trouble> {
    let held = given.texts();
    let (Some(program), Some(proof)) = (held.program, held.proof) else {
        return Ok(None);
    };
    let posed = match pose(rt.alloc(), program, proof) {
        Ok(posed) => posed,
        Err(PosingFault::Memory) => return Err(Trouble::Memory),
        Err(_) => return Ok(None),
    };
    let text = exported(rt.alloc(), &posed, program, options)?;
    write_result(rt, options.output, text.as_bytes())?;
    Ok(Some(Status::Proved.number()))
}

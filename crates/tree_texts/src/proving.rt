//! What is answered to `prove --version 3` of large programs.

ghost use Rattle.std.specs.Prelude.{◌≡◌, IfOk, IfSome, length};
ghost use Rattle.search_laws.specs.Searchable.{AreSearchable};
ghost use Rattle.tree_texts.specs.Written.{IsAcceptedBy, IsWritten};

use crate::writing::text;
use milkhour_run::{Answer, Status, Texts};
use posed_conditions::PosedProof;
use st_memory::Memory;
use std::alloc::Global;
use table_answers::checked;
use tree_answers::large_proof;

/// The text of certificates of a proof that was posed, if one is found of each condition.
fn text_of(alloc: Global, posed: &PosedProof) -> Result<Option<Vec<u8>>, Memory>
    requires { AreSearchable (length posed.now.source.program.variables) posed.now.proof.conditions.items }
{
    let components = &posed.source.components;
    let variables = &posed.source.program.variables;
    let conditions = &posed.proof.conditions;
    text(alloc, components, variables, conditions)
}

/// The text of certificates of a proof, where its program is large and one is found of each condition.
fn found_text(alloc: Global, texts: &Texts<'_>) -> Result<Option<Vec<u8>>, Memory> {
    let Some(program) = texts.program else {
        return Ok(None);
    };
    let Some(proof) = texts.proof else {
        return Ok(None);
    };
    match large_proof(alloc, program, proof)? {
        Some(posed) => text_of(alloc, &posed),
        None => Ok(None),
    }
}

/// What `check` answers with certificates, if it is that the goals hold.
fn accepted(alloc: Global, texts: &Texts<'_>, certificates: &[u8]) -> Result<Option<Answer>, Memory>
    ensures { IfOk result (λ o. IfSome o (IsAcceptedBy texts.now certificates.now)) }
{
    let certified = Texts {
        program: texts.program,
        proof: texts.proof,
        third: Some(certificates),
    };
    match checked(alloc, &certified)? {
        Some(report) => Ok(Some(report)),
        None => Ok(None),
    }
}

/// The answer to `prove` in version 3, where the program has more than six processes and a certificate of each condition is found, of
/// whatever size: a text that `check` accepts. With `None` nothing is said.
pub fn proved(alloc: Global, texts: &Texts<'_>) -> Result<Option<Answer>, Memory>
    ensures { IfOk result (λ o. IfSome o (IsWritten texts.now)) }
{
    let Some(text) = found_text(alloc, texts)? else {
        return Ok(None);
    };
    match accepted(alloc, texts, &text)? {
        Some(_) => Ok(Some(Answer {
            status: Status::Proved,
            text,
        })),
        None => Ok(None),
    }
}

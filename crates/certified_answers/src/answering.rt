//! What is answered where each condition has a certificate. Nothing is searched or checked here: who calls has the certificates.

ghost use Rattle.std.specs.Prelude.{◌≡◌, ℕ, List, All, IfOk, length};
ghost use Rattle.st_form.specs.Shared.{plain_condition};
ghost use Rattle.farkas_check.specs.PlainProblem.{setting};
ghost use Rattle.temporal_goals.specs.Plain.{plain_script};
ghost use Rattle.step_report.specs.Goals.{proved_text};
ghost use Rattle.found_trees.specs.Certified.{HasCertificate};
ghost use Rattle.posed_conditions.specs.Translated.{IsTranslated, IsOfText};
ghost use Rattle.posed_conditions.specs.Posed.{IsPosedBy};
ghost use Rattle.certified_answers.specs.Certified.{IsCertified};

use crate::laws::certificates_are_enough;
use posed_conditions::{PosedProof, TranslatedProgram};
use st_form::Variable;
use st_memory::Memory;
use st_program::Program;
use std::alloc::Global;
use step_answers::{Answer, Status};

fn variables_of(program: &Program) -> &[Variable]
    ensures { result.now ≡ program.now.variables }
{
    program.variables.as_slice()
}

/// How many variables the program has, at most 64.
fn variable_count(source: &TranslatedProgram) -> u32
    requires { IsTranslated source.now }
    ensures { result ≡ length source.now.names.variables }
{
    variables_of(&source.program).len() as u32
}

/// The goals by name, and how many goals and conditions there are, as `verify` reports them.
fn report(alloc: Global, posed: &PosedProof) -> Result<Vec<u8>, Memory>
    requires { IsTranslated posed.now.source }
    ensures { IfOk result (λ t. t.items ≡ proved_text posed.now.source.names (plain_script posed.now.proof.script) (length posed.now.proof.conditions.items)) }
{
    let mut text = Vec::new(alloc);
    step_report::proved(
        &mut text,
        &posed.source.names,
        variable_count(&posed.source),
        &posed.proof.script.steps,
        posed.proof.conditions.len() as u64,
    )?;
    Ok(text)
}

/// The answer to a proof that was posed: where each of its conditions has a valid certificate, its goals hold, and the text names them.
pub fn certified(alloc: Global, posed: &PosedProof) -> Result<Answer, Memory>
    requires { IsTranslated posed.now.source }
    ensures { IfOk result (λ a. (pt qt : List ℕ) → IsOfText pt posed.now.source → IsPosedBy qt posed.now.source posed.now.proof
        → All (λ c. HasCertificate (setting posed.now.source.components posed.now.source.program.variables) (plain_condition c)) posed.now.proof.conditions.items
        → IsCertified pt qt a) }
{
    certificates_are_enough();
    let text = report(alloc, posed)?;
    Ok(Answer {
        status: Status::Proved,
        text,
    })
}

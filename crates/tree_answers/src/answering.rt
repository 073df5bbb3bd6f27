//! What is answered where the search over lists finds a tree of each condition, of whatever size. A tree is a valid certificate by the law
//! of the search, so nothing is checked again.

ghost use Rattle.std.specs.Prelude.{◌≡◌, ◌≤◌, ℕ, All, IfOk, IfSome, List, length, true};
ghost use Rattle.st_form.specs.Shared.{plain_condition};
ghost use Rattle.farkas_check.specs.PlainProblem.{setting};
ghost use Rattle.search_laws.specs.Searchable.{AreSearchable};
ghost use Rattle.found_trees.specs.Certified.{HasCertificate};
ghost use Rattle.posed_conditions.specs.Translated.{IsOfText, IsTranslated};
ghost use Rattle.posed_conditions.specs.Posed.{IsPosedBy};
ghost use Rattle.step_run.specs.WellFormed.{AreShort};
ghost use Rattle.certified_answers.specs.Certified.{IsCertified};
ghost use Rattle.tree_answers.specs.Found.{IsFound};

use certified_answers::certified;
use found_trees::{Components, Condition, Variable, have_trees};
use milkhour_run::{Answer, Texts};
use posed_conditions::{PosedProof, PosingFault, TranslatedProgram, pose_script, translate_text};
use st_memory::Memory;
use std::alloc::Global;

/// A program and a proof have at most so many bytes.
const MOST_OF_TEXT: usize = 4_194_304;

/// A program of more processes is large. A certificate has a part for each place of each process, in each part for the process before, so
/// from seven processes on it may pass the limit of `step`.
const MOST_PROCESSES: usize = 6;

/// Between the processes of a large program, each two of which are parted by `||`, stand so many bars at least.
const LEAST_BARS: usize = 12;

/// Whether texts are within the limits.
fn are_short(program: &[u8], proof: &[u8]) -> bool
    ensures { result ≡ true → AreShort program.now proof.now }
{
    if program.len() > MOST_OF_TEXT {
        return false;
    }
    proof.len() <= MOST_OF_TEXT
}

/// Whether a text has as many bars as a large program. Reading it would tell as well, in a fifth of the time that a short proof takes.
fn has_bars(text: &[u8]) -> bool {
    LEAST_BARS <= text.iter().filter(|byte| **byte == b'|').count()
}

/// The program that a text spells, if it spells a large one.
fn large_of(alloc: Global, text: &[u8]) -> Result<Option<TranslatedProgram>, Memory>
    ensures { IfOk result (λ o. IfSome o (IsOfText text.now)) }
{
    if !has_bars(text) {
        return Ok(None);
    }
    match translate_text(alloc, text) {
        Ok(source) => {
            if source.program.processes.len() <= MOST_PROCESSES {
                return Ok(None);
            }
            Ok(Some(source))
        }
        Err(PosingFault::Memory) => Err(Memory),
        Err(_) => Ok(None),
    }
}

/// The conditions that two texts pose, if they do and the program has more than six processes.
pub fn large_proof(
    alloc: Global,
    program: &[u8],
    proof: &[u8],
) -> Result<Option<PosedProof>, Memory>
    ensures { IfOk result (λ o. IfSome o (λ p. IsOfText program.now p.source × IsPosedBy proof.now p.source p.proof)) }
{
    let Some(source) = large_of(alloc, program)? else {
        return Ok(None);
    };
    match pose_script(alloc, &source, proof) {
        Ok(proof) => Ok(Some(PosedProof { source, proof })),
        Err(PosingFault::Memory) => Err(Memory),
        Err(_) => Ok(None),
    }
}

fn components_of(posed: &PosedProof) -> &Components
    ensures { result.now ≡ posed.now.source.components }
{
    &posed.source.components
}

fn variables_of(posed: &PosedProof) -> &[Variable]
    ensures { result.now ≡ posed.now.source.program.variables }
{
    posed.source.program.variables.as_slice()
}

fn conditions_of(posed: &PosedProof) -> &[Condition]
    ensures { result.now ≡ posed.now.proof.conditions.items }
{
    posed.proof.conditions.as_slice()
}

/// Whether a tree is found of each condition that is posed. Where the answer is no, nothing is said.
fn has_trees(alloc: Global, posed: &PosedProof) -> Result<bool, Memory>
    requires { AreSearchable (length posed.now.source.program.variables) posed.now.proof.conditions.items }
    ensures { IfOk result (λ yes. yes ≡ true → All (λ c. HasCertificate (setting posed.now.source.components posed.now.source.program.variables) (plain_condition c))
        posed.now.proof.conditions.items) }
{
    let components = components_of(posed);
    let variables = variables_of(posed);
    let conditions = conditions_of(posed);
    match have_trees(alloc, components, variables, conditions)? {
        true => Ok(true),
        false => Ok(false),
    }
}

/// The answer to a proof that was posed, where a tree is found of each of its conditions.
fn answer_to(alloc: Global, posed: &PosedProof) -> Result<Option<Answer>, Memory>
    requires translated { IsTranslated posed.now.source }
    requires searchable { AreSearchable (length posed.now.source.program.variables) posed.now.proof.conditions.items }
    ensures { IfOk result (λ o. IfSome o (λ a. (pt qt : List ℕ) → IsOfText pt posed.now.source → IsPosedBy qt posed.now.source posed.now.proof → IsCertified pt qt a)) }
{
    if !has_trees(alloc, posed)? {
        return Ok(None);
    }
    Ok(Some(certified(alloc, posed)?))
}

/// The answer to the texts of a program and of a proof, where the program is large and a tree is found of each condition that they pose.
fn found_texts(alloc: Global, program: &[u8], proof: &[u8]) -> Result<Option<Answer>, Memory>
    ensures { IfOk result (λ o. IfSome o (IsCertified program.now proof.now)) }
{
    match large_proof(alloc, program, proof)? {
        Some(posed) => answer_to(alloc, &posed),
        None => Ok(None),
    }
}

/// The answer to `verify`, where the program has more than six processes and the search finds a certificate of each condition, of whatever
/// size: the goals hold, and the text names them. With `None` nothing is said.
pub fn found(alloc: Global, texts: &Texts<'_>) -> Result<Option<Answer>, Memory>
    ensures { IfOk result (λ o. IfSome o (IsFound texts.now)) }
{
    let Some(program) = texts.program else {
        return Ok(None);
    };
    let Some(proof) = texts.proof else {
        return Ok(None);
    };
    if !are_short(program, proof) {
        return Ok(None);
    }
    found_texts(alloc, program, proof)
}

//! What is answered where the trees of a text of version 3 are certificates of all conditions of a proof.

ghost use Rattle.std.specs.Prelude.{◌≡◌, ◌≤◌, ℕ, IfOk, IfSome, List, Ok, length, map, true};
ghost use Rattle.st_form.specs.Shared.{plain_condition};
ghost use Rattle.farkas_check.specs.PlainProblem.{setting};
ghost use Rattle.search_laws.specs.Searchable.{AreSearchable};
ghost use Rattle.shared_certificates.specs.Lines.{lines};
ghost use Rattle.shared_certificates.specs.Nodes.{certificates, table_view};
ghost use Rattle.shared_certificates.specs.Reading.{text_read};
ghost use Rattle.shared_certificate_laws.specs.Laws.{IsText};
ghost use Rattle.table_check.specs.Conditions.{HaveTrees};
ghost use Rattle.table_check.specs.Nodes.{IsSpelled};
ghost use Rattle.posed_conditions.specs.Translated.{IsOfText, IsTranslated};
ghost use Rattle.posed_conditions.specs.Posed.{IsPosedBy};
ghost use Rattle.step_run.specs.WellFormed.{AreShort, IsShort};
ghost use Rattle.certified_answers.specs.Certified.{IsCertified};
ghost use Rattle.table_answers.specs.Proved.{HoldTrees, IsProved};

use certified_answers::certified;
use milkhour_run::{Answer, Texts};
use posed_conditions::{PosedProof, PosingFault, pose};
use shared_certificate_laws::laws::text_is_exact;
use shared_certificates::{Refusal, Table};
use shared_reading::read;
use st_memory::Memory;
use std::alloc::Global;
use table_check::check;

/// A program and a proof have at most so many bytes.
const MOST_OF_TEXT: usize = 4_194_304;

/// And certificates so many.
const MOST_OF_CERTIFICATES: usize = 268_435_456;

/// Whether texts are within the limits.
fn are_short(program: &[u8], proof: &[u8], third: &[u8]) -> bool
    ensures { result ≡ true → AreShort program.now proof.now × IsShort third.now }
{
    if program.len() > MOST_OF_TEXT {
        return false;
    }
    if proof.len() > MOST_OF_TEXT {
        return false;
    }
    third.len() <= MOST_OF_CERTIFICATES
}

/// The table that a text spells, if it spells one.
fn table_of(alloc: Global, text: &[u8]) -> Result<Option<Table>, Memory>
    ensures { IfOk result (λ o. IfSome o (λ t. text_read (lines text.now) ≡ Ok (table_view t))) }
{
    match read(alloc, text) {
        Ok(table) => Ok(Some(table)),
        Err(fault) => {
            if fault.refusal == Refusal::Memory {
                return Err(Memory);
            }
            Ok(None)
        }
    }
}

/// The conditions that two texts pose, if they do.
fn posed_of(alloc: Global, program: &[u8], proof: &[u8]) -> Result<Option<PosedProof>, Memory>
    ensures { IfOk result (λ o. IfSome o (λ p. IsOfText program.now p.source × IsPosedBy proof.now p.source p.proof)) }
{
    match pose(alloc, program, proof) {
        Ok(posed) => Ok(Some(posed)),
        Err(PosingFault::Memory) => Err(Memory),
        Err(_) => Ok(None),
    }
}

/// Whether the trees of a table are certificates of all conditions that are posed. Where the answer is no, nothing is said.
fn has_trees(alloc: Global, posed: &PosedProof, table: &Table) -> Result<bool, Memory>
    requires searchable { AreSearchable (length posed.now.source.program.variables) posed.now.proof.conditions.items }
    requires spelled { IsSpelled table.now }
    ensures { IfOk result (λ yes. yes ≡ true → HaveTrees (setting posed.now.source.components posed.now.source.program.variables)
        (map plain_condition posed.now.proof.conditions.items) (certificates (table_view table.now))) }
{
    let components = &posed.source.components;
    let variables = &posed.source.program.variables;
    let conditions = &posed.proof.conditions;
    match check(alloc, components, variables, conditions, table)? {
        Some(yes) => Ok(yes),
        None => Ok(false),
    }
}

/// The answer to a proof that was posed, where the trees of a table are certificates of its conditions.
fn answer_to(alloc: Global, posed: &PosedProof, table: &Table) -> Result<Option<Answer>, Memory>
    requires translated { IsTranslated posed.now.source }
    requires searchable { AreSearchable (length posed.now.source.program.variables) posed.now.proof.conditions.items }
    requires spelled { IsSpelled table.now }
    ensures { IfOk result (λ o. IfSome o (λ a. (pt qt : List ℕ) → IsOfText pt posed.now.source → IsPosedBy qt posed.now.source posed.now.proof
        → HaveTrees (setting posed.now.source.components posed.now.source.program.variables) (map plain_condition posed.now.proof.conditions.items) (certificates (table_view table.now))
        × IsCertified pt qt a)) }
{
    if !has_trees(alloc, posed, table)? {
        return Ok(None);
    }
    Ok(Some(certified(alloc, posed)?))
}

/// The answer to the texts of a program and of a proof, where the trees of a table are certificates of the conditions that they pose.
fn checked_by(
    alloc: Global,
    program: &[u8],
    proof: &[u8],
    table: &Table,
) -> Result<Option<Answer>, Memory>
    requires { IsSpelled table.now }
    ensures { (ct : List ℕ) → IsText ct (table_view table.now) → IfOk result (λ o. IfSome o (λ a. HoldTrees program.now proof.now ct × IsCertified program.now proof.now a)) }
{
    match posed_of(alloc, program, proof)? {
        Some(posed) => answer_to(alloc, &posed, table),
        None => Ok(None),
    }
}

/// The answer to these texts, where the trees of the third are certificates.
fn checked_texts(
    alloc: Global,
    program: &[u8],
    proof: &[u8],
    third: &[u8],
) -> Result<Option<Answer>, Memory>
    ensures { IfOk result (λ o. IfSome o (λ a. HoldTrees program.now proof.now third.now × IsCertified program.now proof.now a)) }
{
    text_is_exact();
    match table_of(alloc, third)? {
        Some(table) => checked_by(alloc, program, proof, &table),
        None => Ok(None),
    }
}

/// The answer to `check`, where the third text is of version 3 and has a valid tree for each condition, in their order: the goals hold, and
/// the text names them. With `None` nothing is said.
pub fn checked(alloc: Global, texts: &Texts<'_>) -> Result<Option<Answer>, Memory>
    ensures { IfOk result (λ o. IfSome o (IsProved texts.now)) }
{
    let Some(program) = texts.program else {
        return Ok(None);
    };
    let Some(proof) = texts.proof else {
        return Ok(None);
    };
    let Some(third) = texts.third else {
        return Ok(None);
    };
    if !are_short(program, proof, third) {
        return Ok(None);
    }
    checked_texts(alloc, program, proof, third)
}

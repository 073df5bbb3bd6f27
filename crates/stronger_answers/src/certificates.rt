//! The certificates of a proof's conditions: those that the stronger search finds, and where it finds none, those of the search of `step`.
//! The stronger one is asked first, as its certificates are smaller, and a condition that is wide for the other costs that a hundred
//! thousand problems.

ghost use Rattle.std.specs.Prelude.{◌<◌, ◌≤◌, ◌^◌, length};
ghost use Rattle.farkas_check.specs.PlainProblem.{setting};
ghost use Rattle.shared_search.specs.Books.{Knows};
ghost use Rattle.search_laws.specs.Searchable.{AreSearchable};

use cert_text::{Block, write_block, write_header};
use control_states::Components;
use eager_search::find;
use linear_prover::{Book, Verdict, decide};
use posed_conditions::{PosedProof, PosingFault, pose};
use st_certificate::Certificate;
use st_form::{Condition, Variable};
use st_memory::Memory;
use std::alloc::Global;

/// At most so many problems are looked at by the stronger search of a condition.
const MOST_PROBLEMS: u32 = 50_000;

/// A certificate of the condition at a place, if one is found.
fn certificate_at(
    alloc: Global,
    book: &mut Book,
    components: &Components,
    variables: &[Variable],
    conditions: &[Condition],
    place: usize,
) -> Result<Option<Certificate>, Memory>
    requires few { length variables.now < 2 ^ 32 }
    requires searchable { AreSearchable (length variables.now) conditions.now }
    requires place { place < length conditions.now }
    requires knows { Knows (setting components.now variables.now) book.old }
    ensures { Knows (setting components.now variables.now) book.new }
{
    let condition = &conditions[place];
    if let Some(certificate) = find(alloc, components, variables, condition, MOST_PROBLEMS)? {
        return Ok(Some(certificate));
    }
    match decide(alloc, book, components, variables, condition)? {
        Verdict::Valid(certificate) => Ok(Some(certificate)),
        Verdict::Open(_, _) => Ok(None),
        Verdict::Wide(_, _) => Ok(None),
    }
}

/// Appends the block of the condition at a place; false where there is no certificate.
fn push_block(
    alloc: Global,
    text: &mut Vec<u8>,
    place: usize,
    certificate: Option<Certificate>,
) -> Result<bool, Memory> {
    let Some(certificate) = certificate else {
        return Ok(false);
    };
    let Ok(number) = u32::try_from(place.saturating_add(1)) else {
        return Ok(false);
    };
    let block = Block {
        number,
        certificate,
    };
    write_block(alloc, &block, text)?;
    Ok(true)
}

/// Whether there is a certificate of the condition with a number, which `step` left open.
fn is_found(
    alloc: Global,
    components: &Components,
    variables: &[Variable],
    conditions: &[Condition],
    number: u32,
) -> Result<bool, Memory>
    requires few { length variables.now < 2 ^ 32 }
    requires searchable { AreSearchable (length variables.now) conditions.now }
{
    let place = (number as usize).saturating_sub(1);
    if place >= conditions.len() {
        return Ok(false);
    }
    let mut book = Book::new(alloc, components, variables)?;
    let found = certificate_at(alloc, &mut book, components, variables, conditions, place)?;
    Ok(found.is_some())
}

/// The text of certificates of conditions, if one is found of each.
fn written(
    alloc: Global,
    components: &Components,
    variables: &[Variable],
    conditions: &[Condition],
) -> Result<Option<Vec<u8>>, Memory>
    requires few { length variables.now < 2 ^ 32 }
    requires searchable { AreSearchable (length variables.now) conditions.now }
{
    let mut text = Vec::new(alloc);
    write_header(alloc, &mut text)?;
    let mut book = Book::new(alloc, components, variables)?;
    for place in 0..conditions.len() {
        let found = certificate_at(alloc, &mut book, components, variables, conditions, place)?;
        if !push_block(alloc, &mut text, place, found)? {
            return Ok(None);
        }
    }
    Ok(Some(text))
}

/// The same of a proof that was posed.
fn of_posed(alloc: Global, posed: &PosedProof, first: u32) -> Result<Option<Vec<u8>>, Memory>
    requires few { length posed.now.source.program.variables ≤ 64 }
    requires searchable { AreSearchable (length posed.now.source.program.variables) posed.now.proof.conditions.items }
{
    let components = &posed.source.components;
    let variables = &posed.source.program.variables;
    let conditions = &posed.proof.conditions;
    if !is_found(alloc, components, variables, conditions, first)? {
        return Ok(None);
    }
    written(alloc, components, variables, conditions)
}

/// A text of certificates of all conditions of a proof, if one is found of each; that of the condition with a number, which `step` left
/// open, is looked for first. Whether they are valid is for `step`'s check to say.
pub(crate) fn certificates(
    alloc: Global,
    program: &[u8],
    proof: &[u8],
    first: u32,
) -> Result<Option<Vec<u8>>, Memory> {
    match pose(alloc, program, proof) {
        Ok(posed) => of_posed(alloc, &posed, first),
        Err(PosingFault::Memory) => Err(Memory),
        Err(_) => Ok(None),
    }
}

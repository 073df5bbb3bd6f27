//! What explanations are made from: two texts, what is posed by them, and where things stand in them.

ghost use Rattle.std.specs.Prelude.{◌≡◌, ℕ, List, IfOk, IfSome, None, Ok};
ghost use Rattle.transition_system.specs.Plain.{plain_system};
ghost use Rattle.temporal_goals.specs.Plain.{plain_script};
ghost use Rattle.proof_script.specs.Script.{script_spelled};
ghost use Rattle.posed_conditions.specs.Translated.{IsOfText};
ghost use Rattle.posed_conditions.specs.Posed.{IsPosedBy};
ghost use Rattle.explanations.specs.Explained.{number_of};
ghost use Rattle.explanations.specs.Refused.{AreRefused, IsNoScript};

use crate::refusing::{is_of_texts, is_script, is_stop};
use formula_words::Vocabulary;
use open_conditions::Undecided;
use posed_conditions::{PosedProof, PosedScript, TranslatedProgram, pose, translate_text};
use proof_script::read_script;
use source_lines::Lines;
use source_places::{StatementPlace, StepPlaces};
use spl_parser::{RawProgram, parse_program};
use st_memory::Memory;
use std::alloc::Global;
use temporal_goals::Script;

/// A program and a proof, each with the name of its file.
#[derive(Clone, Copy)]
pub struct Texts<'a> {
    pub program_name: &'a str,
    pub program: &'a [u8],
    pub proof_name: &'a str,
    pub proof: &'a [u8],
}

/// Where things stand in the two texts.
#[derive(Drop)]
pub(crate) struct Places {
    pub statements: Vec<StatementPlace>,
    pub steps: Vec<StepPlaces>,
}

/// Two texts with what is posed by them.
#[derive(Clone, Copy)]
pub(crate) struct Sources<'a> {
    pub texts: Texts<'a>,
    pub program: &'a Lines<'a>,
    pub proof: &'a Lines<'a>,
    pub places: &'a Places,
    pub words: &'a Vocabulary,
    pub source: &'a TranslatedProgram,
    pub posed: &'a PosedScript,
}

/// The raw program, in which the places are: `None` where the text is refused.
pub(crate) fn raw_program<'a>(
    alloc: Global,
    text: &'a [u8],
) -> Result<Option<RawProgram<'a>>, Memory>
    ensures { IfOk result (λ o. o ≡ None → (proof : List ℕ) → AreRefused text.now proof) }
{
    match parse_program(alloc, text) {
        Ok(raw) => Ok(Some(raw)),
        Err(fault) => {
            if is_stop(fault) {
                Ok(None)
            } else {
                Err(Memory)
            }
        }
    }
}

/// The program of a text, translated: `None` where the text is refused.
pub(crate) fn translated(alloc: Global, text: &[u8]) -> Result<Option<TranslatedProgram>, Memory>
    ensures read { IfOk result (λ o. IfSome o (IsOfText text.now)) }
    ensures refused { IfOk result (λ o. o ≡ None → (proof : List ℕ) → AreRefused text.now proof) }
{
    match translate_text(alloc, text) {
        Ok(source) => Ok(Some(source)),
        Err(fault) => {
            if is_of_texts(fault) {
                Ok(None)
            } else {
                Err(Memory)
            }
        }
    }
}

/// The script that a text spells over a program, its conditions not made: `None` where the text is refused.
pub(crate) fn spelled(
    alloc: Global,
    source: &TranslatedProgram,
    text: &[u8],
) -> Result<Option<Script>, Memory>
    ensures read { IfOk result (λ o. IfSome o (λ s. script_spelled source.now.names (plain_system source.now.system) text.now ≡ Ok (plain_script s))) }
    ensures refused { IfOk result (λ o. o ≡ None → IsNoScript source.now text.now) }
{
    if 4194304 < text.len() {
        return Ok(None);
    }
    match read_script(alloc, text, &source.names, &source.system) {
        Ok(script) => Ok(Some(script)),
        Err(fault) => {
            if is_script(fault) {
                Ok(None)
            } else {
                Err(Memory)
            }
        }
    }
}

/// Two texts, read: `None` where one of them is refused.
pub(crate) fn posed(alloc: Global, texts: &Texts<'_>) -> Result<Option<PosedProof>, Memory>
    ensures read { IfOk result (λ o. IfSome o (λ p. IsOfText texts.now.program.now p.source × IsPosedBy texts.now.proof.now p.source p.proof)) }
    ensures refused { IfOk result (λ o. o ≡ None → AreRefused texts.now.program.now texts.now.proof.now) }
{
    match pose(alloc, texts.program, texts.proof) {
        Ok(posed) => Ok(Some(posed)),
        Err(fault) => {
            if is_of_texts(fault) {
                Ok(None)
            } else {
                Err(Memory)
            }
        }
    }
}

/// The number of a condition, from 1.
pub(crate) fn number(undecided: &Undecided) -> u64
    ensures { result ≡ number_of undecided.now }
{
    (undecided.place as u64).saturating_add(1)
}

//! A program of a text, as a fair transition system.

ghost use Rattle.std.specs.Prelude.{IfOk, IfErr};
ghost use Rattle.spl_parser.specs.ProgramTree.{program_view};
ghost use Rattle.posed_conditions.specs.Translated.{IsOfTree, IsOfText};
ghost use Rattle.posed_conditions.specs.Refused.{BreaksTyping, RefusesProgram};

use crate::faults::{PosingFault, of_parse, of_typing};
use control_facts::components;
use control_states::Components;
use spl_parser::{RawProgram, parse_program};
use spl_translation::translate;
use spl_typer::type_program;
use st_program::{NameTable, Program};
use std::alloc::Global;
use transition_system::Fts;

/// A typed program with its names, what its components can be at, and its fair transition system.
#[derive(Drop)]
pub struct TranslatedProgram {
    pub program: Program,
    pub names: NameTable,
    pub components: Components,
    pub system: Fts,
}

/// Types and translates a program that was read.
fn translate_raw(alloc: Global, raw: &RawProgram<'_>) -> Result<TranslatedProgram, PosingFault>
    ensures made { IfOk result (IsOfTree (program_view raw.now)) }
    ensures refused { IfErr result (BreaksTyping (program_view raw.now)) }
{
    let (program, names) = match type_program(alloc, raw) {
        Ok(typed) => typed,
        Err(fault) => return Err(of_typing(fault)),
    };
    let components = components(alloc, &program)?;
    let system = translate(alloc, &program)?;
    Ok(TranslatedProgram {
        program,
        names,
        components,
        system,
    })
}

/// The program that a text spells, typed and translated.
///
/// # Errors
///
/// The text's first fault, or the first rule of typing that is broken, each with its place; or want of memory.
pub fn translate_text(alloc: Global, text: &[u8]) -> Result<TranslatedProgram, PosingFault>
    ensures made { IfOk result (IsOfText text.now) }
    ensures refused { IfErr result (RefusesProgram text.now) }
{
    match parse_program(alloc, text) {
        Ok(raw) => translate_raw(alloc, &raw),
        Err(fault) => Err(of_parse(fault)),
    }
}

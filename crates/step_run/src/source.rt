//! The program of a run: read, typed, and with its names.

ghost use Rattle.std.specs.Prelude.{◌≡◌, IfOk};
ghost use Rattle.st_outside.specs.Faults.{NoneFell};
ghost use Rattle.step_plan.specs.Stage.{Comes, Settles, IfOn};
ghost use Rattle.step_run.specs.Refusals.{Gives};
ghost use Rattle.step_run.specs.Source.{source_spelled, IsSpelled};
ghost use Rattle.step_run.specs.Views.{source_view};
ghost use Rattle.step_run.specs.Plans.{source_of_text, source_plan};

use crate::ends::program_refused;
use crate::refusals::Refusal;
use spl_parser::parse_program;
use spl_typer::type_program;
use st_memory::Memory;
use st_outside::Files;
use st_program::{NameTable, Program};
use std::alloc::Global;
use step_plan::{FileRole, Stage, ask};

/// A typed program with its names.
#[derive(Drop)]
pub struct Source {
    pub program: Program,
    pub names: NameTable,
}

/// Reads the program that a text spells. A text that spells none is refused at its first fault.
fn read_source(alloc: Global, text: &[u8]) -> Result<Source, Refusal>
    ensures { Gives source_view result (source_spelled text.now) }
{
    let raw = parse_program(alloc, text)?;
    let (program, names) = type_program(alloc, &raw)?;
    Ok(Source { program, names })
}

/// The program that a text spells, or the run's end.
pub fn source_of_text(alloc: Global, text: &[u8]) -> Result<Stage<Source>, Memory>
    ensures settles { IfOk result (Settles source_view (source_of_text text.now)) }
    ensures spelled { IfOk result (λ s. IfOn s (λ source. IsSpelled (source_view source))) }
{
    match read_source(alloc, text) {
        Ok(source) => Ok(Stage::On(source)),
        Err(refusal) => Ok(Stage::Over(program_refused(alloc, refusal)?)),
    }
}

/// Reads the program's file.
pub fn ask_source<F: Files>(
    alloc: Global,
    files: &mut F,
    name: &str,
) -> Result<Stage<Source>, Memory>
    ensures comes { IfOk result (Comes source_view (F.told files.old) (F.faults files.old) (F.faults files.new) (source_plan name.now)) }
    ensures spelled { IfOk result (λ s. IfOn s (λ source. IsSpelled (source_view source))) }
    ensures same { F.told files.new ≡ F.told files.old }
    ensures later { NoneFell (F.faults files.old) (F.faults files.new) }
{
    match ask(alloc, files, FileRole::Program, name)? {
        Stage::On(text) => source_of_text(alloc, &text),
        Stage::Over(ended) => Ok(Stage::Over(ended)),
    }
}

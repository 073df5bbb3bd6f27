//! The program of a search.

ghost use Rattle.std.specs.Prelude.{◌≡◌, IfOk, length};

use crate::answers::FindFault;
use clause_texts::ClauseWriter;
use control_cubes::CubeFault;
use control_facts::components;
use control_states::Components;
use invariant_search::Search;
use spl_parser::{RawProgram, parse_program};
use spl_translation::translate;
use spl_typer::{TypeFault, type_program};
use st_memory::Memory;
use st_program::{NameTable, Program, Variable};
use std::alloc::Global;
use transition_system::Fts;

/// A program with its names, its system and its components.
#[derive(Drop)]
pub(crate) struct Subject {
    pub(crate) program: Program,
    pub(crate) names: NameTable,
    pub(crate) system: Fts,
    pub(crate) components: Components,
    /// The number of variables.
    pub(crate) variables: u32,
    ghost counted: { variables ≡ length names.variables },
}

/// Types a program that was read. Its names are as many as its variables.
fn typed(alloc: Global, raw: &RawProgram<'_>) -> Result<(Program, NameTable), TypeFault>
    ensures { IfOk result (λ p. length p.1.variables ≡ length p.0.variables) }
{
    match type_program(alloc, raw) {
        Ok(pair) => Ok(pair),
        Err(fault) => Err(fault),
    }
}

/// The variables of a program.
fn variables_of(program: &Program) -> &[Variable]
    ensures { result.now ≡ program.now.variables }
{
    program.variables.as_slice()
}

/// Reads the program that a text spells.
pub(crate) fn read_subject(alloc: Global, text: &[u8]) -> Result<Subject, FindFault> {
    let raw = parse_program(alloc, text)?;
    let (program, names) = typed(alloc, &raw)?;
    let system = translate(alloc, &program)?;
    let components = components(alloc, &program)?;
    let Ok(variables) = u32::try_from(variables_of(&program).len()) else {
        return Err(FindFault::Memory);
    };
    Ok(Subject {
        program,
        names,
        system,
        components,
        variables,
    })
}

impl Subject {
    /// A search over the program without lemmas, which may ask so many queries.
    pub(crate) fn search(&self, alloc: Global, budget: u64) -> Result<Search<'_>, CubeFault> {
        Search::new(alloc, &self.program, &self.system, &self.components, budget)
    }

    /// What writes clauses of the program.
    pub(crate) fn writer(
        &self,
        alloc: Global,
        search: &Search<'_>,
    ) -> Result<ClauseWriter<'_>, Memory> {
        ClauseWriter::new(
            alloc,
            &self.names,
            self.variables,
            &self.components,
            search.layout(),
            search.dead(),
        )
    }
}

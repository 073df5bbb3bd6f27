//! A program as far as facts are looked for.

ghost use Rattle.std.specs.Prelude.{◌≡◌, IfOk, length};

use control_facts::components;
use control_states::Components;
use spl_parser::{RawProgram, parse_program};
use spl_translation::translate;
use spl_typer::{TypeFault, type_program};
use st_memory::Memory;
use st_program::{NameTable, Program, Variable};
use std::alloc::Global;
use transition_system::Fts;

/// A program's names, its system and its components.
#[derive(Drop)]
pub(crate) struct Subject {
    pub(crate) names: NameTable,
    pub(crate) system: Fts,
    pub(crate) components: Components,
    /// The number of variables.
    pub(crate) variables: u32,
    ghost counted: { variables ≡ length names.variables },
}

/// Types a program that was read. Its names are as many as its variables.
fn typed(alloc: Global, raw: &RawProgram<'_>) -> Result<(Program, NameTable), TypeFault>
    ensures { IfOk result (λ p. length p.1.variables ≡ length p.0.variables) }
{
    match type_program(alloc, raw) {
        Ok(pair) => Ok(pair),
        Err(fault) => Err(fault),
    }
}

/// The variables of a program.
fn variables_of(program: &Program) -> &[Variable]
    ensures { result.now ≡ program.now.variables }
{
    program.variables.as_slice()
}

/// Translates a program with its names; `None` where it has more variables than can be numbered, which no program has.
fn subject_of(alloc: Global, program: &Program, names: NameTable) -> Result<Option<Subject>, Memory>
    requires { length names.variables ≡ length program.now.variables }
{
    let system = translate(alloc, program)?;
    let components = components(alloc, program)?;
    let Ok(variables) = u32::try_from(variables_of(program).len()) else {
        return Ok(None);
    };
    Ok(Some(Subject {
        names,
        system,
        components,
        variables,
    }))
}

/// Reads the program that a text spells; `None` where it is refused.
pub(crate) fn read_subject(alloc: Global, text: &[u8]) -> Result<Option<Subject>, Memory> {
    let Ok(raw) = parse_program(alloc, text) else {
        return Ok(None);
    };
    match typed(alloc, &raw) {
        Ok((program, names)) => subject_of(alloc, &program, names),
        Err(_) => Ok(None),
    }
}

impl Subject {
    /// The locations that have labels.
    pub(crate) fn labelled(&self, alloc: Global) -> Result<Vec<u32>, Memory> {
        let mut out = Vec::new(alloc);
        for location in 0..self.system.locations {
            if self.names.location_name(location).is_some() {
                out.push(location)?;
            }
        }
        Ok(out)
    }
}

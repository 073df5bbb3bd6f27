//! What the parts of a program are called. A label is the name of its statement and of its location; a statement without one is
//! called by its line and column, and the end of a process by the process, so that one numbering serves for all.

ghost use Rattle.std.specs.Prelude.{◌≡◌, length};
ghost use Rattle.posed_conditions.specs.Translated.{IsTranslated};

use control_states::{Alternative, Components};
use formula_words::Vocabulary;
use posed_conditions::TranslatedProgram;
use source_lines::Lines;
use source_places::StatementPlace;
use spl_parser::RawProcess;
use st_form::{Part, TransName};
use st_memory::Memory;
use st_program::NameTable;
use std::alloc::Global;
use std::str;
use transition_system::Fts;

/// The name of each variable.
fn variables(alloc: Global, names: &NameTable, count: u32) -> Result<Vec<String>, Memory>
    requires { count ≡ length names.now.variables }
{
    let mut out = Vec::new(alloc);
    for variable in 0..count {
        let name = names.variable_name(variable);
        out.push(String::from_str(alloc, name)?)?;
    }
    Ok(out)
}

/// A statement without a label by its line and column.
fn unlabelled(
    alloc: Global,
    lines: &Lines<'_>,
    place: Option<&StatementPlace>,
    occurrence: u32,
) -> Result<String, Memory> {
    match place {
        Some(place) => {
            let position = lines.position(place.whole.from);
            Ok(format!(in alloc; "{}:{}", position.line, position.column)?)
        }
        None => Ok(format!(in alloc; "#{}", u64::from(occurrence) + 1)?),
    }
}

/// The name of each statement.
fn statements(
    alloc: Global,
    names: &NameTable,
    count: u32,
    lines: &Lines<'_>,
    places: &[StatementPlace],
) -> Result<Vec<String>, Memory> {
    let mut out = Vec::new(alloc);
    for occurrence in 0..count {
        let name = match names.statement_name(occurrence) {
            Some(label) => String::from_str(alloc, label)?,
            None => unlabelled(alloc, lines, places.get(occurrence as usize), occurrence)?,
        };
        out.push(name)?;
    }
    Ok(out)
}

/// The component around a child by its cooperation, and how many children of that stand before it.
fn child(
    alloc: Global,
    components: &Components,
    component: u32,
    occurrence: u32,
    statements: &[String],
) -> Result<String, Memory> {
    let mut number: u32 = 1;
    for other in 0..component {
        match components.around(other) {
            Some((_, same)) if same == occurrence => number = number.saturating_add(1),
            Some(_) | None => {}
        }
    }
    let name = match statements.get(occurrence as usize) {
        Some(name) => name.as_str(),
        None => "?",
    };
    Ok(format!(in alloc; "part {number} of {name}")?)
}

/// The name of a process.
fn process(alloc: Global, raw: Option<&RawProcess<'_>>) -> Result<String, Memory> {
    let text: &[u8] = match raw {
        Some(raw) => raw.name.text,
        None => b"?".as_slice(),
    };
    Ok(String::from_str(alloc, str::from_utf8(text).unwrap_or("?"))?)
}

/// The name of each component: a process by its own, a child of a cooperation by that.
fn parts(
    alloc: Global,
    components: &Components,
    processes: &[RawProcess<'_>],
    statements: &[String],
) -> Result<Vec<String>, Memory> {
    let mut out = Vec::new(alloc);
    let mut seen: usize = 0;
    for component in 0..components.count() {
        match components.around(component) {
            Some((_, occurrence)) => {
                out.push(child(alloc, components, component, occurrence, statements)?)?;
            }
            None => {
                out.push(process(alloc, processes.get(seen))?)?;
                seen = seen.saturating_add(1);
            }
        }
    }
    Ok(out)
}

/// Puts a statement at the location of each of a transition's modes, unless one is there.
fn note(table: &mut [Option<u32>], location: Option<&u32>, occurrence: u32) {
    if let Some(location) = location {
        if let Some(slot) = table.get_mut(*location as usize) {
            if slot.is_none() {
                *slot = Some(occurrence);
            }
        }
    }
}

/// Of each location the first statement whose transition begins there.
fn beginnings(alloc: Global, system: &Fts) -> Result<Vec<Option<u32>>, Memory> {
    let mut table = Vec::new(alloc);
    table.resize(system.locations as usize, None)?;
    for transition in &system.transitions {
        match transition.name {
            TransName::Step {
                occ,
                part: Part::Whole | Part::Entry,
            } => {
                for mode in &transition.modes {
                    note(&mut table, mode.at.first(), occ);
                }
            }
            TransName::Step {
                occ: _,
                part: Part::Exit,
            }
            | TransName::Idle => {}
        }
    }
    Ok(table)
}

/// A location at which no transition begins is the end of its component.
fn end_name(
    alloc: Global,
    components: &Components,
    parts: &[String],
    location: u32,
) -> Result<String, Memory> {
    let owner = components.owners().get(location as usize);
    let part = owner.and_then(|component| parts.get(*component as usize));
    match part {
        Some(part) => Ok(format!(in alloc; "end of {part}")?),
        None => Ok(format!(in alloc; "@{}", u64::from(location) + 1)?),
    }
}

/// A location by its label, by the statement that begins there, or as an end.
fn location(
    alloc: Global,
    source: &TranslatedProgram,
    statements: &[String],
    parts: &[String],
    beginning: Option<u32>,
    location: u32,
) -> Result<String, Memory> {
    if let Some(label) = source.names.location_name(location) {
        return Ok(String::from_str(alloc, label)?);
    }
    let name = beginning.and_then(|occurrence| statements.get(occurrence as usize));
    match name {
        Some(name) => Ok(name.clone()?),
        None => end_name(alloc, &source.components, parts, location),
    }
}

/// The name of each location.
fn locations(
    alloc: Global,
    source: &TranslatedProgram,
    statements: &[String],
    parts: &[String],
) -> Result<Vec<String>, Memory> {
    let table = beginnings(alloc, &source.system)?;
    let mut out = Vec::new(alloc);
    for (number, beginning) in table.iter().enumerate() {
        let number = u32::try_from(number).unwrap_or(u32::MAX);
        let name = location(alloc, source, statements, parts, *beginning, number)?;
        out.push(name)?;
    }
    Ok(out)
}

/// How many variables a program has, at most 64.
fn variable_count(source: &TranslatedProgram) -> u32
    requires { IsTranslated source.now }
    ensures { result ≡ length source.now.names.variables }
{
    source.program.variables.len() as u32
}

/// The names of a program's parts.
pub fn vocabulary(
    alloc: Global,
    source: &TranslatedProgram,
    processes: &[RawProcess<'_>],
    lines: &Lines<'_>,
    places: &[StatementPlace],
) -> Result<Vocabulary, Memory>
    requires { IsTranslated source.now }
{
    let count = variable_count(source);
    let variables = variables(alloc, &source.names, count)?;
    let statements = statements(
        alloc,
        &source.names,
        source.program.statements,
        lines,
        places,
    )?;
    let components = parts(alloc, &source.components, processes, &statements)?;
    let locations = locations(alloc, source, &statements, &components)?;
    Ok(Vocabulary {
        variables,
        locations,
        statements,
        components,
    })
}

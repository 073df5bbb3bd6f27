//! What the parts of a program are called.

use control_states::Alternative;
use st_form::{Part, TransName};
use st_memory::Memory;
use st_program::Datum;
use std::alloc::Global;

/// Names by number: of variables, of locations, of statements by occurrence, and of components. What has no name is called `?`.
#[derive(Drop)]
pub struct Vocabulary {
    pub variables: Vec<String>,
    pub locations: Vec<String>,
    pub statements: Vec<String>,
    pub components: Vec<String>,
}

fn name_at(names: &[String], number: u32) -> &str {
    match names.get(number as usize) {
        Some(name) => name.as_str(),
        None => "?",
    }
}

fn suffix(part: Part) -> &'static str {
    match part {
        Part::Whole => "",
        Part::Entry => ".entry",
        Part::Exit => ".exit",
    }
}

impl Vocabulary {
    pub fn variable(&self, variable: u32) -> &str {
        name_at(&self.variables, variable)
    }

    pub fn location(&self, location: u32) -> &str {
        name_at(&self.locations, location)
    }

    pub fn statement(&self, occurrence: u32) -> &str {
        name_at(&self.statements, occurrence)
    }

    pub fn component(&self, component: u32) -> &str {
        name_at(&self.components, component)
    }

    /// A transition: `idle`, or its statement's name, with the part behind a dot where it is the entry or the exit of a
    /// cooperation.
    pub fn transition(&self, alloc: Global, name: TransName) -> Result<String, Memory> {
        match name {
            TransName::Idle => Ok(String::from_str(alloc, "idle")?),
            TransName::Step { occ, part } => {
                let mut text = String::from_str(alloc, self.statement(occ))?;
                text.push_str(suffix(part))?;
                Ok(text)
            }
        }
    }

    /// What a component is at: a location, or the inside of a cooperation.
    pub fn place(&self, alloc: Global, place: Alternative) -> Result<String, Memory> {
        match place {
            Alternative::Location(location) => {
                Ok(String::from_str(alloc, self.location(location))?)
            }
            Alternative::Inside(occurrence) => {
                let mut text = String::from_str(alloc, "inside ")?;
                text.push_str(self.statement(occurrence))?;
                Ok(text)
            }
        }
    }
}

/// A value: a number, `true` or `false`.
pub fn value(alloc: Global, datum: Datum) -> Result<String, Memory> {
    match datum {
        Datum::Number(number) => Ok(format!(in alloc; "{number}")?),
        Datum::Truth(true) => Ok(String::from_str(alloc, "true")?),
        Datum::Truth(false) => Ok(String::from_str(alloc, "false")?),
    }
}

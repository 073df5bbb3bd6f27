//! What SMT-LIB calls the parts of a program. A variable is itself between bars; where control of component k is, counted from 1,
//! is the number `|control k|`: the place among what the component can be at, from 0, or -1 where the component isn't active.

ghost use Rattle.std.specs.Prelude.{◌≡◌, ◌≤◌, length};
ghost use Rattle.posed_conditions.specs.Translated.{IsTranslated};

use control_states::{Alternative, Components};
use posed_conditions::TranslatedProgram;
use st_memory::Memory;
use st_program::NameTable;
use std::alloc::Global;

/// Where a location stands: its component, and its place among what the component can be at.
#[derive(Clone, Copy)]
pub(crate) struct Standing {
    pub(crate) component: usize,
    pub(crate) place: usize,
}

/// The names of variables, and where each location stands.
#[derive(Drop)]
pub(crate) struct Symbols {
    pub(crate) variables: Vec<String>,
    pub(crate) standings: Vec<Standing>,
}

/// The names of the variables, of which there are so many.
fn variable_names(alloc: Global, names: &NameTable, count: usize) -> Result<Vec<String>, Memory>
    requires all { count ≡ length names.now.variables }
    requires few { count ≤ 64 }
{
    let mut out = Vec::with_capacity(alloc, count)?;
    for variable in 0..count {
        out.push(String::from_str(alloc, names.variable_name(variable as u32))?)?;
    }
    Ok(out)
}

/// The locations that a component can be at get their standings.
fn place_all(standings: &mut [Standing], component: usize, alternatives: &[Alternative]) {
    for (place, alternative) in alternatives.iter().enumerate() {
        if let Alternative::Location(location) = alternative
            && let Some(standing) = standings.get_mut(*location as usize)
        {
            *standing = Standing { component, place };
        }
    }
}

/// Where each location stands, by its number.
fn standings_of(alloc: Global, components: &Components) -> Result<Vec<Standing>, Memory> {
    let nowhere = Standing {
        component: 0,
        place: 0,
    };
    let mut standings = vec![in alloc; nowhere; components.owners().len()]?;
    for (number, component) in components.parts().iter().enumerate() {
        place_all(&mut standings, number, component.alternatives());
    }
    Ok(standings)
}

impl Symbols {
    /// The symbols of a program.
    pub(crate) fn new(alloc: Global, source: &TranslatedProgram) -> Result<Symbols, Memory>
        requires { IsTranslated source.now }
    {
        let count = source.program.variables.len();
        Ok(Symbols {
            variables: variable_names(alloc, &source.names, count)?,
            standings: standings_of(alloc, &source.components)?,
        })
    }

    /// The name of a variable; a number that no variable has gives an empty one.
    pub(crate) fn variable(&self, variable: u32) -> &str {
        match self.variables.get(variable as usize) {
            Some(name) => name.as_str(),
            None => "",
        }
    }
}

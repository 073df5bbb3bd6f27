//! What a search goes over: a program, or a program beside which something else runs.

use crate::step::{Step, all_steps};
use control_cubes::{CubeFault, Layout, Place};
use control_states::Components;
use st_form::{Form, Variable};
use st_memory::Memory;
use st_program::Program;
use std::alloc::Global;
use transition_system::Fts;

/// Variables, components with their places, where control is at the beginning and what holds then, and modes.
#[derive(Drop)]
pub struct Machine<'a> {
    pub variables: &'a [Variable],
    pub components: &'a Components,
    pub layout: Layout,
    pub first: Vec<Place>,
    pub initial: &'a Form,
    pub steps: Vec<Step<'a>>,
}

/// Where control of each process is at the beginning.
fn first_places(alloc: Global, layout: &Layout, program: &Program) -> Result<Vec<Place>, Memory> {
    let mut out = Vec::new(alloc);
    for process in &program.processes {
        if let Some(statement) = process.body.first()
            && let Some(place) = layout.of_location(statement.loc)
        {
            out.push(place)?;
        }
    }
    Ok(out)
}

impl<'a> Machine<'a> {
    /// A program, by its system and its components. `TooLarge` where a component has more than 128 places.
    pub fn of_program(
        alloc: Global,
        program: &'a Program,
        system: &'a Fts,
        components: &'a Components,
    ) -> Result<Machine<'a>, CubeFault> {
        let layout = Layout::new(alloc, components)?;
        let first = first_places(alloc, &layout, program)?;
        let steps = all_steps(alloc, &layout, system)?;
        Ok(Machine {
            variables: program.variables.as_slice(),
            components,
            layout,
            first,
            initial: &system.initial,
            steps,
        })
    }
}

//! Locations of statements, kept by occurrence. A program looks for a statement through all in front of it, and where control is
//! in the states of a run is asked for a few statements again and again.

ghost use Rattle.std.specs.Prelude.{◌≡◌, IfOk, option_to_list};
ghost use Rattle.st_program.specs.Plain.{plain_children};
ghost use Rattle.st_program.specs.Spots.{spot};
ghost use Rattle.spl_semantics.specs.Control.{location_at};
ghost use Rattle.trace_player.specs.Fronts.{AreLocations};

use st_memory::Memory;
use st_program::Program;
use std::alloc::Global;

/// The location of the statement with this occurrence.
fn location(program: &Program, occ: u32) -> Option<u32>
    ensures { option_to_list result ≡ location_at (spot (plain_children program.now.processes) occ) }
{
    match program.statement(occ) {
        Some(stmt) => Some(stmt.loc),
        None => None,
    }
}

/// The location of each statement.
pub fn locations_of(alloc: Global, program: &Program) -> Result<Vec<Option<u32>>, Memory>
    ensures { IfOk result (λ v. AreLocations (plain_children program.now.processes) v.items) }
{
    let mut locations = Vec::with_capacity(alloc, program.statements as usize)?;
    for occ in 0..program.statements {
        locations.push(location(program, occ))?;
    }
    Ok(locations)
}

/// The location of the statement with this occurrence, from the list as far as it goes.
pub fn location_in(program: &Program, known: &[Option<u32>], occ: u32) -> Option<u32>
    requires { AreLocations (plain_children program.now.processes) known.now }
    ensures { option_to_list result ≡ location_at (spot (plain_children program.now.processes) occ) }
{
    match known.get(occ as usize) {
        Some(location) => *location,
        None => location(program, occ),
    }
}

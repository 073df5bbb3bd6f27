//! What is the same for all goals that are judged on a run, made once: where control is in each state, and the run as fairness
//! sees it.

ghost use Rattle.std.specs.Prelude.{◌≡◌, ◌<◌, ◌^◌, length, IfOk};
ghost use Rattle.st_program.specs.Plain.{plain_children};
ghost use Rattle.trace_player.specs.Watching.{IsWhole, IsWatched};

use crate::counting::course_of;
use crate::fronts::fronts_of;
use crate::runs::Played;
use run_judging::Course;
use st_memory::Memory;
use st_program::Program;
use std::alloc::Global;

/// A run as goals see it.
#[derive(Drop)]
pub struct Watched {
    /// The locations where control is in each state.
    pub fronts: Vec<Vec<u32>>,
    /// What fairness sees.
    pub course: Course,
}

/// What goals see of a run that was played.
pub fn watch(alloc: Global, program: &Program, played: &Played) -> Result<Watched, Memory>
    requires few { length played.now.enabled.items < 2 ^ 32 }
    requires long { length played.now.states.items ≡ length played.now.enabled.items }
    ensures whole { IfOk result (IsWhole played.now) }
    ensures watched { IfOk result (IsWatched (plain_children program.now.processes) played.now) }
{
    Ok(Watched {
        fronts: fronts_of(alloc, program, &played.states)?,
        course: course_of(alloc, program, played)?,
    })
}

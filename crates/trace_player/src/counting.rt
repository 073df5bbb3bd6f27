//! How many rounds begin at each position of a run of a program.

ghost use Rattle.std.specs.Prelude.{◌≡◌, ◌<◌, ◌^◌, List, IfOk, length, map};
ghost use Rattle.st_form.specs.declared.conditions.TransName.{TransName};
ghost use Rattle.st_program.specs.Plain.{plain_children};
ghost use Rattle.spl_semantics.specs.Runs.{State, place_in};
ghost use Rattle.spl_semantics.specs.Observed.{observed};
ghost use Rattle.run_judging.specs.Greatest.{AreGreatest};
ghost use Rattle.run_judging.specs.Shown.{Shows};
ghost use Rattle.trace_player.specs.Playing.{IsPlayed};
ghost use Rattle.trace_player.specs.Courses.{are_rows};

use crate::naming::{all_names, fairness_of, flags_of, place_in};
use crate::runs::Played;
use observations::Fairness;
use run_judging::Course;
use st_form::TransName;
use st_memory::Memory;
use st_program::Program;
use std::alloc::Global;

/// For each state a flag for each name, whether it is enabled.
fn rows_of(
    alloc: Global,
    names: &[(TransName, Fairness)],
    enabled: &[Vec<TransName>],
    statements: u32,
) -> Result<Vec<Vec<bool>>, Memory>
    ensures { IfOk result (λ v. map (λ r. r.items) v.items ≡ are_rows names.now enabled.now) }
{
    let mut rows = Vec::new(alloc);
    for row in enabled {
        rows.push(flags_of(alloc, names, row, statements)?)?;
    }
    Ok(rows)
}

/// The place of each step's name.
fn places_of(
    alloc: Global,
    names: &[(TransName, Fairness)],
    taken: &[TransName],
) -> Result<Vec<usize>, Memory>
    ensures { IfOk result (λ v. v.items ≡ map (λ name. place_in names.now name) taken.now) }
{
    let mut places = Vec::new(alloc);
    for name in taken {
        places.push(place_in(names, *name))?;
    }
    Ok(places)
}

/// The run as fairness sees it.
pub fn course_of(alloc: Global, program: &Program, played: &Played) -> Result<Course, Memory>
    ensures long { IfOk result (λ course. length course.enabled.items ≡ length played.now.enabled.items) }
    ensures shows { IfOk result (λ course. (s : State) (later : List (TransName × State)) → IsPlayed (plain_children program.now.processes) s later played.now
        → Shows course (observed (plain_children program.now.processes) s later)) }
{
    let names = all_names(alloc, program)?;
    Ok(Course {
        fairness: fairness_of(alloc, &names)?,
        enabled: rows_of(alloc, &names, &played.enabled, program.statements)?,
        taken: places_of(alloc, &names, &played.names)?,
    })
}

/// For each position of a run the greatest number of consecutive rounds that begin there and end within the run.
pub fn rounds(alloc: Global, program: &Program, played: &Played) -> Result<Vec<u32>, Memory>
    requires { length played.now.enabled.items < 2 ^ 32 }
    ensures { IfOk result (λ counts. (s : State) (later : List (TransName × State)) → IsPlayed (plain_children program.now.processes) s later played.now
        → AreGreatest (observed (plain_children program.now.processes) s later) counts.items) }
{
    let course = course_of(alloc, program, played)?;
    let counts = run_judging::rounds(alloc, &course)?;
    Ok(counts)
}

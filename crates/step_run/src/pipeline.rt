//! The commands over files, each as in `specs/Plans.antt`: the program is read, then the script over it, then its conditions are
//! generated; and these are checked against certificates, or decided, or their certificates are written. A trace goes from
//! the script to the schedule, and invariants are looked for in the program alone.

ghost use Rattle.std.specs.Prelude.{◌≡◌, ◌<◌, IfOk};
ghost use Rattle.std.specs.Thread.{IsSync};
ghost use Rattle.st_outside.specs.Faults.{NoneFell};
ghost use Rattle.step_plan.specs.Plan.{then_plan, Follows};
ghost use Rattle.step_run.specs.Plans.{source_plan, scripted_plan, conditions_plan, check_posed, verify_posed, prove_posed, trace_scripted, find_in};

use crate::checking::checked;
use crate::invariants::invariants;
use crate::posed::ask_conditions;
use crate::proving::written;
use crate::scripted::ask_script;
use crate::source::ask_source;
use crate::tracing::traced;
use crate::verifying::verified;
use st_memory::Memory;
use st_outside::{Files, Gate};
use std::alloc::Global;
use std::thread::Threads;
use step_plan::{Ended, FileRole, Stage, ask};

/// Checks the conditions of a script against a file of certificates.
pub fn check<R: Threads + Sync, F: Files, G: Gate + Sync>(
    rt: &R,
    alloc: Global,
    files: &mut F,
    gate: &G,
    workers: u32,
    program: &str,
    proof: &str,
    certificates: &str,
) -> Result<Ended, Memory>
    requires { 0 < workers }
    ensures follows { IfOk result (Follows (F.told files.old) (F.faults files.old) (F.faults files.new)
        (then_plan (conditions_plan program.now proof.now) (check_posed certificates.now))) }
    ensures same { F.told files.new ≡ F.told files.old }
    ensures later { NoneFell (F.faults files.old) (F.faults files.new) }
{
    let posed = match ask_conditions(alloc, files, program, proof)? {
        Stage::On(posed) => posed,
        Stage::Over(ended) => return Ok(ended),
    };
    checked(rt, alloc, files, gate, workers, &posed, certificates)
}

/// Decides the conditions of a script.
pub fn verify<R: Threads + Sync, F: Files, G: Gate + Sync>(
    rt: &R,
    alloc: Global,
    files: &mut F,
    gate: &G,
    workers: u32,
    program: &str,
    proof: &str,
) -> Result<Ended, Memory>
    requires { 0 < workers }
    ensures follows { IfOk result (Follows (F.told files.old) (F.faults files.old) (F.faults files.new)
        (then_plan (conditions_plan program.now proof.now) verify_posed)) }
    ensures same { F.told files.new ≡ F.told files.old }
    ensures later { NoneFell (F.faults files.old) (F.faults files.new) }
{
    match ask_conditions(alloc, files, program, proof)? {
        Stage::On(posed) => verified(rt, alloc, gate, workers, &posed),
        Stage::Over(ended) => Ok(ended),
    }
}

/// Writes certificates of the conditions of a script.
pub fn prove<F: Files>(
    alloc: Global,
    files: &mut F,
    program: &str,
    proof: &str,
) -> Result<Ended, Memory>
    ensures follows { IfOk result (Follows (F.told files.old) (F.faults files.old) (F.faults files.new)
        (then_plan (conditions_plan program.now proof.now) prove_posed)) }
    ensures same { F.told files.new ≡ F.told files.old }
    ensures later { NoneFell (F.faults files.old) (F.faults files.new) }
{
    match ask_conditions(alloc, files, program, proof)? {
        Stage::On(posed) => written(alloc, &posed),
        Stage::Over(ended) => Ok(ended),
    }
}

/// Plays a schedule of a program, and judges the goals of a script on its run.
pub fn trace<F: Files>(
    alloc: Global,
    files: &mut F,
    program: &str,
    proof: &str,
    schedule: &str,
) -> Result<Ended, Memory>
    ensures follows { IfOk result (Follows (F.told files.old) (F.faults files.old) (F.faults files.new)
        (then_plan (scripted_plan program.now proof.now) (trace_scripted schedule.now))) }
    ensures same { F.told files.new ≡ F.told files.old }
    ensures later { NoneFell (F.faults files.old) (F.faults files.new) }
{
    let scripted = match ask_script(alloc, files, program, proof)? {
        Stage::On(scripted) => scripted,
        Stage::Over(ended) => return Ok(ended),
    };
    match ask(alloc, files, FileRole::Schedule, schedule)? {
        Stage::On(text) => traced(alloc, &scripted, &text),
        Stage::Over(ended) => Ok(ended),
    }
}

/// Reads the program's file, and looks for invariants.
pub fn find<F: Files>(alloc: Global, files: &mut F, program: &str) -> Result<Ended, Memory>
    ensures follows { IfOk result (Follows (F.told files.old) (F.faults files.old) (F.faults files.new) (then_plan (source_plan program.now) find_in)) }
    ensures same { F.told files.new ≡ F.told files.old }
    ensures later { NoneFell (F.faults files.old) (F.faults files.new) }
{
    match ask_source(alloc, files, program)? {
        Stage::On(source) => invariants(alloc, source),
        Stage::Over(ended) => Ok(ended),
    }
}

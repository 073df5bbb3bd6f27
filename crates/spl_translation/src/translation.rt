//! The translation of a program as a system.

ghost use Rattle.std.specs.Prelude.{◌≡◌, map, IfOk};
ghost use Rattle.observations.specs.Observation.{Observation};
ghost use Rattle.st_form.specs.Formula.{Situation};
ghost use Rattle.st_form.specs.Plain.{plain};
ghost use Rattle.st_program.specs.Plain.{plain_children};
ghost use Rattle.transition_system.specs.Plain.{plain_system};
ghost use Rattle.transition_system.specs.Meaning.{IsRun};
ghost use Rattle.spl_semantics.specs.Runs.{IsRunOf};
ghost use Rattle.spl_translation.specs.Translation.{initial_form, translation};
ghost use Rattle.spl_translation.specs.Correspondence.{Corresponds};

use crate::owning::starts_of;
use crate::translating::transitions_of;
use st_form::{Form, Variable, opened};
use st_memory::Memory;
use st_program::{Child, Program};
use std::alloc::Global;
use transition_system::Fts;

/// A program as a fair transition system: its transitions in order (idling, then by occurrence, an entry directly before
/// its exit), each with its fairness, and what holds at the beginning. Its steps are the program's, both ways, and each run
/// of the program is one of the system; the system has further runs, since control may begin anywhere beside the
/// beginnings of the processes. Source: Manna and Pnueli, *Temporal Verification of Reactive Systems: Safety*, sections
/// 0.3 and 0.5. `Memory` for want of memory.
pub fn translate(alloc: Global, program: &Program) -> Result<Fts, Memory>
    ensures exact { IfOk result (λ fts. plain_system fts
        ≡ translation program.now.variables (plain program.now.initial) (plain_children program.now.processes) program.now.locations) }
    ensures corresponds { IfOk result (λ fts.
        Corresponds (plain_children program.now.processes) (plain program.now.initial) (plain_system fts)) }
    ensures runs { IfOk result (λ fts. (o : Observation Situation)
        → IsRunOf (plain_children program.now.processes) (plain program.now.initial) o → IsRun (plain_system fts) o) }
{
    let initial = beginning(alloc, &program.processes, &program.initial)?;
    let truths = truths_of(alloc, &program.variables)?;
    let transitions = transitions_of(alloc, &program.processes)?;
    Ok(Fts {
        locations: program.locations,
        truths,
        initial,
        transitions,
    })
}

/// Control is at the beginning of each process, and each `where` formula holds.
#[tactic(auto, using(st_form::proofs::Nodes::nodes))]
fn beginning(alloc: Global, processes: &[Child], initial: &Form) -> Result<Form, Memory>
    ensures { IfOk result (λ f. plain f ≡ initial_form (plain_children processes.now) (plain initial.now)) }
{
    let starts = starts_of(alloc, processes)?;
    let mut parts = Vec::new(alloc);
    for location in &starts {
        parts.push(Form::At(*location))?;
    }
    let mut further = opened(alloc, initial)?;
    parts.append(&mut further)?;
    Ok(Form::And(parts))
}

/// Whether each variable is boolean.
fn truths_of(alloc: Global, variables: &[Variable]) -> Result<Vec<bool>, Memory>
    ensures { IfOk result (λ v. v.items ≡ map (λ x. x.truth) variables.now) }
{
    let mut out = Vec::with_capacity(alloc, variables.len())?;
    for variable in variables {
        out.push(variable.truth)?;
    }
    Ok(out)
}

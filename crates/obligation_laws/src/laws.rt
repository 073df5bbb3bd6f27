//! The law of obligations, the contract of a function that does nothing.

ghost use Rattle.st_form.specs.Plain.{plain};
ghost use Rattle.st_program.specs.Plain.{plain_children};
ghost use Rattle.spl_translation.specs.Translation.{translation};
ghost use Rattle.obligation_laws.specs.Obligations.{ValidIsEnough};

use spl_semantics::laws::runs_meet_control;
use spl_translation::laws::runs_are_runs;
use st_program::Program;

/// Where all conditions that a rule generates for the program's translation are valid, and what it cites is invariant, the
/// rule's goal holds on every run of the program.
pub fn valid_is_enough(program: &Program)
    ensures { ValidIsEnough (plain_children program.now.processes) (plain program.now.initial)
        (translation program.now.variables (plain program.now.initial) (plain_children program.now.processes) program.now.locations) }
{
    let _ = &program.processes;
    runs_meet_control(program);
    runs_are_runs();
}

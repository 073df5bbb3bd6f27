//! Laws of the ends of runs, each the contract of a function that does nothing.

ghost use Rattle.step_run.specs.StatusZero.{EndsShow, EndsAreExact};
ghost use Rattle.step_run.specs.Decided.{PlansAreDecided};

use block_laws::laws::blocks_are_exact;
use program_rules::laws::lawful_is_typing;
use proof_grammar::laws::{read_scripts_are_spelled, spelled_scripts_are_read};
use proof_script::laws::{scripts_are_over, scripts_are_proofs};
use schedule_grammar::laws::{read_schedules_are_spelled, spelled_schedules_are_read};
use script_bounds::laws::over_is_written;
use script_laws::laws::{scripts_are_within, scripts_prove};
use search_laws::laws::certificates_are_valid;
use spl_parser::laws::{what_is_read_is_spelled, what_is_spelled_is_read};
use typing_laws::laws::read_is_typed;

/// Where the plan of a request ends with status 0, goals hold on every run of the program, and the output names them; and it
/// ends so exactly where the texts are well formed and all conditions are discharged, or decided valid.
pub fn status_zero_is_exact()
    ensures shows { EndsShow }
    ensures exact { EndsAreExact }
{
    what_is_read_is_spelled();
    what_is_spelled_is_read();
    lawful_is_typing();
    read_scripts_are_spelled();
    spelled_scripts_are_read();
    read_schedules_are_spelled();
    spelled_schedules_are_read();
    scripts_are_proofs();
    scripts_are_over();
    over_is_written();
    scripts_are_within();
    scripts_prove();
    blocks_are_exact();
    certificates_are_valid();
}

/// The plan of no request ends with want of memory or with a fault of the outside. What a text is refused for is always a
/// fault at a place or a limit.
pub fn plans_are_decided()
    ensures { PlansAreDecided }
{
    read_is_typed();
}

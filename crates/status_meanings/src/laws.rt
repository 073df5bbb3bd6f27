//! Laws of the ends of runs, each the contract of a function that does nothing.

ghost use Rattle.status_meanings.specs.Completeness.{RunsAreComplete};
ghost use Rattle.status_meanings.specs.Meanings.{EachMeansSo};
ghost use Rattle.status_meanings.specs.Statuses.{RunsEndSo};

use block_laws::laws::{blocks_are_exact, test_is_exact};
use cert_laws::laws::{
    end_is_exact, header_is_read, limit_is_exact, malformed_is_exact, need_is_exact,
    read_is_spelled, spelled_is_read,
};
use program_rules::laws::lawful_is_typing;
use proof_grammar::laws::{read_scripts_are_spelled, spelled_scripts_are_read};
use schedule_grammar::laws::{
    read_schedules_are_spelled, schedules_first_fault, spelled_schedules_are_read,
};
use script_grammar::laws::scripts_first_fault;
use spl_parser::laws::{first_fault, what_is_read_is_spelled, what_is_spelled_is_read};
use trace_laws::laws::{made_schedules_are_runs, schedules_stop_where_runs_do};
use typing_laws::laws::read_is_typed;

/// The run of a request over files that are told has a status and a text exactly where it ends so: at a file that is too long; at
/// the first fault of a text; at a limit; at the first condition that isn't discharged; where a schedule gives no run; or with
/// what is proved.
pub fn runs_end_so()
    ensures { RunsEndSo }
{
    what_is_read_is_spelled();
    what_is_spelled_is_read();
    first_fault();
    read_is_typed();
    lawful_is_typing();
    read_scripts_are_spelled();
    spelled_scripts_are_read();
    scripts_first_fault();
    spelled_is_read();
    header_is_read();
    read_is_spelled();
    test_is_exact();
    need_is_exact();
    end_is_exact();
    limit_is_exact();
    malformed_is_exact();
    blocks_are_exact();
    spelled_schedules_are_read();
    read_schedules_are_spelled();
    schedules_first_fault();
    made_schedules_are_runs();
    schedules_stop_where_runs_do();
}

/// Where the texts are well formed and all is discharged, the run of a request ends with status 0 and exactly this text; and so does
/// each run where nothing outside failed, but for want of memory.
pub fn runs_are_complete()
    ensures { RunsAreComplete }
{
    runs_end_so();
}

/// Each status but 0 has a sentence, which is true where a run ends with it: exactly what is printed, and why. None of a request's
/// plan ends with status 6, 7 or 9.
pub fn each_status_means_so()
    ensures { EachMeansSo }
{
    what_is_spelled_is_read();
    read_is_typed();
    runs_end_so();
}

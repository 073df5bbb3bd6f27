//! The law, the contract of a function that does nothing.

ghost use Rattle.first_failures.specs.Laws.{SearchesFailFirst};

use block_laws::laws::blocks_are_exact;
use open_points::laws::open_problems_hold_at_points;
use program_rules::laws::lawful_is_typing;
use proof_grammar::laws::{read_scripts_are_spelled, spelled_scripts_are_read};
use proof_script::laws::{scripts_are_over, scripts_are_proofs};
use schedule_grammar::laws::{read_schedules_are_spelled, spelled_schedules_are_read};
use script_bounds::laws::over_is_written;
use script_laws::laws::{scripts_are_within, scripts_prove};
use search_laws::laws::{
    certificates_are_valid, programs_are_in_order, searches_end_there, shown_states_refute,
};
use spl_parser::laws::what_is_read_is_spelled;

/// Where `verify`, `prove` or a workload ends with status 1, its text tells of the first condition that isn't decided valid: that
/// it is left open, with a state that refutes it or at a point in fractions, or that the search gave up on it.
pub fn searches_fail_first()
    ensures { SearchesFailFirst }
{
    what_is_read_is_spelled();
    lawful_is_typing();
    read_scripts_are_spelled();
    spelled_scripts_are_read();
    read_schedules_are_spelled();
    spelled_schedules_are_read();
    scripts_are_proofs();
    scripts_are_over();
    over_is_written();
    scripts_are_within();
    scripts_prove();
    blocks_are_exact();
    certificates_are_valid();
    programs_are_in_order();
    searches_end_there();
    shown_states_refute();
    open_problems_hold_at_points();
}

//! The law, the contract of a function that does nothing.

ghost use Rattle.step_laws.specs.Laws.{ProvedIsAccepted};

use block_laws::laws::blocks_are_exact;
use program_rules::laws::lawful_is_typing;
use proof_grammar::laws::{read_scripts_are_spelled, spelled_scripts_are_read};
use proof_script::laws::{scripts_are_over, scripts_are_proofs};
use schedule_grammar::laws::{read_schedules_are_spelled, spelled_schedules_are_read};
use script_bounds::laws::over_is_written;
use script_laws::laws::{scripts_are_within, scripts_prove};
use search_blocks::laws::{found_are_written, texts_hold_blocks};
use search_laws::laws::{certificates_are_valid, programs_are_in_order};
use spl_parser::laws::{what_is_read_is_spelled, what_is_spelled_is_read};

/// What `prove` writes, `check` accepts: where the third file tells the text with which `prove` ended with status 0, `check`
/// ends with status 0 and names the goals.
pub fn proved_is_accepted()
    ensures { ProvedIsAccepted }
{
    what_is_read_is_spelled();
    what_is_spelled_is_read();
    lawful_is_typing();
    read_scripts_are_spelled();
    spelled_scripts_are_read();
    read_schedules_are_spelled();
    spelled_schedules_are_read();
    scripts_are_proofs();
    scripts_are_over();
    over_is_written();
    scripts_are_within();
    scripts_prove();
    blocks_are_exact();
    certificates_are_valid();
    programs_are_in_order();
    found_are_written();
    texts_hold_blocks();
}

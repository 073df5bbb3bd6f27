//! The law that certificates of all conditions are enough, as the contract of a function that does nothing.

ghost use Rattle.certified_answers.specs.Enough.{CertificatesAreEnough};

use block_laws::laws::blocks_are_exact;
use program_rules::laws::lawful_is_typing;
use proof_grammar::laws::{read_scripts_are_spelled, spelled_scripts_are_read};
use proof_script::laws::{scripts_are_over, scripts_are_proofs};
use schedule_grammar::laws::{read_schedules_are_spelled, spelled_schedules_are_read};
use script_bounds::laws::over_is_written;
use script_laws::laws::{scripts_are_within, scripts_prove};
use search_laws::laws::certificates_are_valid;
use spl_parser::laws::what_is_read_is_spelled;

/// Of the texts by which a proof was posed, valid certificates of its conditions show all that its report says: the texts are well formed, and
/// each goal holds on every run of the program.
pub fn certificates_are_enough()
    ensures { CertificatesAreEnough }
{
    what_is_read_is_spelled();
    lawful_is_typing();
    read_scripts_are_spelled();
    spelled_scripts_are_read();
    read_schedules_are_spelled();
    spelled_schedules_are_read();
    scripts_are_proofs();
    scripts_are_over();
    over_is_written();
    scripts_are_within();
    scripts_prove();
    blocks_are_exact();
    certificates_are_valid();
}

//! The law, the contract of a function that does nothing.

ghost use Rattle.found_equations.specs.Said.{InvariantsSayWhatWasFound};

use equation_laws::laws::what_is_found_spans;
use program_rules::laws::lawful_is_typing;
use spl_parser::laws::what_is_read_is_spelled;

/// Where `invariants` ends with status 0, its text has a line for each equation that was found: its formula, or that it is left
/// out for a named cause. Each equation, printed or not, holds on every run of the program.
pub fn invariants_say_what_was_found()
    ensures { InvariantsSayWhatWasFound }
{
    what_is_found_spans();
    what_is_read_is_spelled();
    lawful_is_typing();
}

//! The laws, as contracts of functions that do nothing.

ghost use Rattle.std.specs.Prelude.{◌≡◌, List, Some};
ghost use Rattle.st_form.specs.Plain.{plain};
ghost use Rattle.st_program.specs.Plain.{plain_children};
ghost use Rattle.spl_translation.specs.Translation.{translation};
ghost use Rattle.equation_laws.specs.Equations.{PlainEquation, found};
ghost use Rattle.equation_runs.specs.Holding.{AllHold, AllInvariant};

use st_program::Program;

/// What is found for a program's translation holds in every state of every run of the program, by the interleaved steps of SPL.
pub fn what_is_found_holds(program: &Program)
    ensures { (es : List PlainEquation)
        → found (translation program.now.variables (plain program.now.initial) (plain_children program.now.processes) program.now.locations) ≡ Some es
        → AllHold (plain_children program.now.processes) (plain program.now.initial) es }
{
    let _ = &program.processes;
}

/// The formula of each equation that is found for a program's translation is invariant: it holds on every run of the program.
pub fn formulas_of_what_is_found_are_invariant(program: &Program)
    ensures { (es : List PlainEquation)
        → found (translation program.now.variables (plain program.now.initial) (plain_children program.now.processes) program.now.locations) ≡ Some es
        → AllInvariant (plain_children program.now.processes) (plain program.now.initial) es }
{
    let _ = &program.processes;
}

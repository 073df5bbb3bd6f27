//! The laws, as contracts of functions that do nothing.

ghost use Rattle.std.specs.Prelude.{List};
ghost use Rattle.st_form.specs.Plain.{plain};
ghost use Rattle.st_program.specs.Plain.{plain_children};
ghost use Rattle.control_facts.specs.Alternatives.{control_of};
ghost use Rattle.spl_translation.specs.Translation.{translation};
ghost use Rattle.constant_facts.specs.declared.fact.Fact.{Fact};
ghost use Rattle.constant_facts.specs.Facts.{AreInductive};
ghost use Rattle.fact_runs.specs.Holding.{HoldAlways, AllInvariant};

use st_program::Program;

/// Facts that the start of a program's translation gives and every mode keeps hold in every state of every run of the program, by
/// the interleaved steps of SPL.
pub fn inductive_facts_hold(program: &Program)
    ensures { (fs : List Fact)
        → AreInductive (control_of (plain_children program.now.processes))
        (translation program.now.variables (plain program.now.initial) (plain_children program.now.processes) program.now.locations) fs
        → HoldAlways (plain_children program.now.processes) (plain program.now.initial) fs }
{
    let _ = &program.processes;
}

/// The formula of each such fact, that where control is at its location its variable has its value, holds on every run.
pub fn formulas_of_inductive_facts_are_invariant(program: &Program)
    ensures { (fs : List Fact)
        → AreInductive (control_of (plain_children program.now.processes))
        (translation program.now.variables (plain program.now.initial) (plain_children program.now.processes) program.now.locations) fs
        → AllInvariant (plain_children program.now.processes) (plain program.now.initial) fs }
{
    let _ = &program.processes;
}

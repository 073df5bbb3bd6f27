//! Laws on the typing rules of programs, which make no call.
//!
//! The rules are given twice: as the walk over the text with the first fault that it meets, and as the list of all
//! faults, each rule adding the places at which it is broken. A law ties both; what they say of expressions are laws of
//! `expression_typer`.

ghost use Rattle.std.specs.Prelude.{⊤};
ghost use Rattle.spl_parser.specs.ProgramTree.{Program};
ghost use Rattle.expression_typer.specs.Told.{Tells};
ghost use Rattle.spl_typer.specs.Programs.{typing};
ghost use Rattle.spl_typer.specs.ProgramRules.{program_faults, ProgramModest};
ghost use Rattle.spl_typer.specs.Standing.{NamesStand};
ghost use Rattle.spl_typer.specs.Unbounded.{IsTooLargeExactly};

/// The walk over a program gives a program exactly where no rule is broken in it, and else the first of the faults.
pub fn program_is_told()
    ensures { (p : Program) → ProgramModest p → Tells (λ t. ⊤) (typing p) (program_faults p) }
{}

/// A group of typed parts is too large exactly where it has few paths and a number of a composed right side is past 2^30, however
/// large forms may be: no number on the way comes to 2^100.
pub fn no_number_on_the_way_is_too_large()
    ensures { IsTooLargeExactly }
{}

/// The names of a typed program stand for its variables, each by its number and type, and for locations below its number of
/// locations.
pub fn names_stand()
    ensures { NamesStand }
{}

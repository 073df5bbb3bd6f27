//! What is answered where a text is refused. Want of memory refuses none.

ghost use Rattle.std.specs.Prelude.{◌≡◌, ℕ, false, List, IfOk, Ok};
ghost use Rattle.st_reading.specs.Reading.{IsStop};
ghost use Rattle.st_reading.specs.Faults as parsing;
ghost use Rattle.spl_parser.specs.ProgramTree as raw;
ghost use Rattle.expression_typer.specs.Answers.{Fails};
ghost use Rattle.spl_typer.specs.Programs.{Typed};
ghost use Rattle.refuted_goals.specs.Denied.{DeniesProgram, DeniesScript, DeniesSchedule};

use posed_conditions::PosingFault;
use proof_script::ScriptFault;
use schedule_reader::ScheduleFault;
use spl_parser::ParseFault;
use spl_typer::TypeFault;
use st_memory::Memory;

/// Where a text isn't read as a program.
fn no_tree(fault: ParseFault) -> Result<bool, Memory>
    ensures { IfOk result (λ b. (b ≡ false) × ((tree : raw.Program) → IsStop (parsing.see fault) (Ok tree) → ⊥)) }
{
    match fault {
        ParseFault::Token(_) => Ok(false),
        ParseFault::Syntax(_) => Ok(false),
        ParseFault::Limit(_, _) => Ok(false),
        ParseFault::Memory => Err(Memory),
    }
}

/// Where a program breaks a rule of typing.
fn no_typing(fault: TypeFault) -> Result<bool, Memory>
    ensures { IfOk result (λ b. (b ≡ false) × ((p : Typed) → Fails fault (Ok p) → ⊥)) }
{
    match fault {
        TypeFault::Unknown(_) => Ok(false),
        TypeFault::Twice(_) => Ok(false),
        TypeFault::WrongType(_) => Ok(false),
        TypeFault::NonLinear(_) => Ok(false),
        TypeFault::TooLarge(_) => Ok(false),
        TypeFault::InputAssigned(_) => Ok(false),
        TypeFault::SelectHead(_) => Ok(false),
        TypeFault::SameTarget(_) => Ok(false),
        TypeFault::Limit(_, _) => Ok(false),
        TypeFault::Memory => Err(Memory),
    }
}

/// Where a text is no program.
pub(crate) fn no_program(fault: PosingFault) -> Result<bool, Memory>
    ensures { IfOk result (DeniesProgram fault) }
{
    match fault {
        PosingFault::Program(fault) => no_tree(fault),
        PosingFault::Typing(fault) => no_typing(fault),
        PosingFault::LongProof => Ok(false),
        PosingFault::Proof(_) => Ok(false),
        PosingFault::Conditions(_) => Ok(false),
        PosingFault::Memory => Err(Memory),
    }
}

/// Where a text is no script over a program.
pub(crate) fn no_script(fault: ScriptFault) -> Result<bool, Memory>
    ensures { IfOk result (DeniesScript fault) }
{
    match fault {
        ScriptFault::At(_, _) => Ok(false),
        ScriptFault::Memory => Err(Memory),
    }
}

/// Where a text is no schedule for a program.
pub(crate) fn no_schedule(fault: ScheduleFault) -> Result<bool, Memory>
    ensures { IfOk result (DeniesSchedule fault) }
{
    match fault {
        ScheduleFault::Token(_) => Ok(false),
        ScheduleFault::Syntax(_) => Ok(false),
        ScheduleFault::Unknown(_) => Ok(false),
        ScheduleFault::Twice(_) => Ok(false),
        ScheduleFault::WrongType(_) => Ok(false),
        ScheduleFault::Unset(_) => Ok(false),
        ScheduleFault::UnknownTransition(_) => Ok(false),
        ScheduleFault::Moves(_) => Ok(false),
        ScheduleFault::Memory => Err(Memory),
    }
}

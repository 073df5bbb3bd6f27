//! Why two texts give no conditions.

ghost use Rattle.std.specs.Prelude.{◌≡◌, ℕ, List, []};
ghost use Rattle.transition_system.specs.Plain.{plain_system};
ghost use Rattle.temporal_goals.specs.Texts.{PlainStep};
ghost use Rattle.st_reading.specs.Reading.{IsStop};
ghost use Rattle.st_reading.specs.Faults as parsing;
ghost use Rattle.spl_parser.specs.ProgramTree as raw;
ghost use Rattle.spl_parser.specs.Parsing.{parsed};
ghost use Rattle.expression_typer.specs.Answers.{Fails};
ghost use Rattle.spl_typer.specs.Programs.{typing};
ghost use Rattle.proof_script.specs.Faults as scripts;
ghost use Rattle.proof_script.specs.Script.{script_spelled};
ghost use Rattle.script_laws.specs.Script.{script_list};
ghost use Rattle.script_laws.specs.Refused.{refused_at};
ghost use Rattle.obligations.specs.Made.{IsRefusal};
ghost use Rattle.posed_conditions.specs.declared.translated.TranslatedProgram.{TranslatedProgram};
ghost use Rattle.posed_conditions.specs.Refused.{BreaksTyping, RefusesProgram, RefusesProof, PassesLimit};

use obligations::ObligationFault;
use proof_script::ScriptFault;
use spl_parser::ParseFault;
use spl_typer::TypeFault;
use st_memory::Memory;
use thiserror::Error;

/// Why two texts give no conditions. Places are byte offsets from 0 in the text that is meant, steps are numbered from 0.
#[derive(Clone, Copy, Debug, PartialEq, Eq, Error)]
pub enum PosingFault {
    /// The first text is no program.
    #[error("the program: {0}")]
    Program(ParseFault),
    /// The program breaks a rule of typing.
    #[error("the program: {0}")]
    Typing(TypeFault),
    /// The second text has more than 4,194,304 bytes.
    #[error("the proof is longer than 4,194,304 bytes")]
    LongProof,
    /// The second text is no script over the program.
    #[error("the proof: {0}")]
    Proof(ScriptFault),
    /// The script's conditions pass a limit.
    #[error("{0}")]
    Conditions(ObligationFault),
    /// Memory was asked for and refused.
    #[error("out of memory")]
    Memory,
}

impl From<Memory> for PosingFault {
    ghost use Rattle.std.specs.Prelude.{◌≡◌};
    ghost use Rattle.posed_conditions.specs.declared.faults.PosingFault.TheVariants as faults;

    ghost from_gives = { λ _ fault. fault ≡ faults.Memory };

    fn from(_: Memory) -> PosingFault {
        PosingFault::Memory
    }
}

/// A fault of the grammar of programs.
pub(crate) fn of_parse(fault: ParseFault) -> PosingFault
    ensures { (text : List ℕ) → IsStop (parsing.see fault) (parsed text) → RefusesProgram text result }
{
    match fault {
        ParseFault::Memory => PosingFault::Memory,
        _ => PosingFault::Program(fault),
    }
}

/// A fault of typing.
pub(crate) fn of_typing(fault: TypeFault) -> PosingFault
    ensures { (tree : raw.Program) → Fails fault (typing tree) → BreaksTyping tree result }
{
    match fault {
        TypeFault::Memory => PosingFault::Memory,
        _ => PosingFault::Typing(fault),
    }
}

/// A fault of the script.
pub(crate) fn of_script(fault: ScriptFault) -> PosingFault
    ensures { (x : TranslatedProgram) (text : List ℕ)
        → IsStop (scripts.see fault) (script_spelled x.names (plain_system x.system) text) → RefusesProof x text result }
{
    match fault {
        ScriptFault::Memory => PosingFault::Memory,
        ScriptFault::At(_, _) => PosingFault::Proof(fault),
    }
}

/// A limit that the conditions pass.
pub(crate) fn of_obligation(fault: ObligationFault) -> PosingFault
    ensures { (x : TranslatedProgram) (steps : List PlainStep)
        → IsRefusal fault (refused_at [] (script_list (plain_system x.system) steps)) → PassesLimit x steps result }
{
    match fault {
        ObligationFault::Memory => PosingFault::Memory,
        _ => PosingFault::Conditions(fault),
    }
}

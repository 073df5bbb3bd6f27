//! Which faults are of the texts, and which are want of memory.

ghost use Rattle.std.specs.Prelude.{◌≡◌, true};
ghost use Rattle.st_reading.specs.Faults as parsing;
ghost use Rattle.proof_script.specs.Faults as scripts;
ghost use Rattle.explanations.specs.Refused.{IsLimit, IsOfTexts, IsRule, IsSeen};

use expression_typer::TypeFault;
use obligations::ObligationFault;
use posed_conditions::PosingFault;
use proof_script::ScriptFault;
use spl_parser::ParseFault;

/// Whether a text breaks the grammar of programs, or a limit of it.
pub(crate) fn is_stop(fault: ParseFault) -> bool
    ensures { result ≡ true → IsSeen (parsing.see fault) }
{
    match fault {
        ParseFault::Syntax(_) => true,
        ParseFault::Token(_) => true,
        ParseFault::Limit(_, _) => true,
        ParseFault::Memory => false,
    }
}

fn is_rule(fault: TypeFault) -> bool
    ensures { result ≡ true → IsRule fault }
{
    match fault {
        TypeFault::Unknown(_) => true,
        TypeFault::Twice(_) => true,
        TypeFault::WrongType(_) => true,
        TypeFault::NonLinear(_) => true,
        TypeFault::TooLarge(_) => true,
        TypeFault::InputAssigned(_) => true,
        TypeFault::SelectHead(_) => true,
        TypeFault::SameTarget(_) => true,
        TypeFault::Limit(_, _) => true,
        TypeFault::Memory => false,
    }
}

/// Whether a text breaks the grammar of proofs, or a rule or limit of it.
pub(crate) fn is_script(fault: ScriptFault) -> bool
    ensures { result ≡ true → IsSeen (scripts.see fault) }
{
    match fault {
        ScriptFault::At(_, _) => true,
        ScriptFault::Memory => false,
    }
}

fn is_limit(fault: ObligationFault) -> bool
    ensures { result ≡ true → IsLimit fault }
{
    match fault {
        ObligationFault::TooMany(_) => true,
        ObligationFault::TooWide(_) => true,
        ObligationFault::TooHeavy(_) => true,
        ObligationFault::Memory => false,
    }
}

/// Whether the texts are refused, and not for want of memory.
pub(crate) fn is_of_texts(fault: PosingFault) -> bool
    ensures { result ≡ true → IsOfTexts fault }
{
    match fault {
        PosingFault::Program(fault) => is_stop(fault),
        PosingFault::Typing(fault) => is_rule(fault),
        PosingFault::LongProof => true,
        PosingFault::Proof(fault) => is_script(fault),
        PosingFault::Conditions(fault) => is_limit(fault),
        PosingFault::Memory => false,
    }
}

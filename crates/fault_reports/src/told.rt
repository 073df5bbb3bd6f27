//! What each kind of fault means, in a sentence, and how it is mended: the sections of `docs/use/faults.md` in a line each.

use crate::refusal::Kind;
use crate::texts::Reader;

/// What is told of a kind.
#[derive(Clone, Copy, Debug)]
pub(crate) struct KindWords {
    pub code: &'static str,
    pub sentence: &'static str,
    pub help: &'static str,
}

fn words(code: &'static str, sentence: &'static str, help: &'static str) -> KindWords {
    KindWords {
        code,
        sentence,
        help,
    }
}

/// A name that isn't known.
fn unknown(reader: &Reader) -> KindWords {
    match reader {
        Reader::Program => words(
            "Unknown",
            "this variable isn't declared",
            "declare it at the head of the program or of its process",
        ),
        Reader::Proof(_) => words(
            "Unknown",
            "the program has no such variable or label",
            "a label is a formula only behind `at`",
        ),
        Reader::Schedule(_) => words(
            "Unknown",
            "the program has no such variable",
            "only variables are set, and labels are moves",
        ),
    }
}

/// A second one of something.
fn twice(reader: &Reader) -> KindWords {
    match reader {
        Reader::Program => words(
            "Twice",
            "this name is declared twice",
            "variables, labels and processes share their names over the whole program",
        ),
        Reader::Proof(_) => words(
            "Twice",
            "this name or number stands twice",
            "take another one",
        ),
        Reader::Schedule(_) => words(
            "Twice",
            "this variable is set twice",
            "values change by moves alone",
        ),
    }
}

fn of_types(kind: Kind) -> KindWords {
    match kind {
        Kind::WrongType => words(
            "WrongType",
            "a number stands where a truth value is wanted, or the other way round",
            "`=` compares numbers: of truth values write `b` or `~b`, or `(b -> c) /\\ (c -> b)`",
        ),
        Kind::NonLinear => words(
            "NonLinear",
            "neither side of this product is constant",
            "the language is linear: multiply by numerals alone",
        ),
        Kind::TooLarge => words(
            "TooLarge",
            "a number that is computed here is past 2^30",
            "write smaller numbers",
        ),
        Kind::InputAssigned => words(
            "InputAssigned",
            "an `in` variable is never changed",
            "copy it into a `local` one",
        ),
        Kind::SelectHead => words(
            "SelectHead",
            "a branch of a selection begins with a loop",
            "put a `skip;` in front, in a block",
        ),
        _ => words(
            "SameTarget",
            "a variable stands twice on the left",
            "one of its values is to go",
        ),
    }
}

fn of_steps(kind: Kind) -> KindWords {
    match kind {
        Kind::UnknownLemma => words(
            "UnknownLemma",
            "no earlier step has this name",
            "cite invariants that stand above",
        ),
        Kind::NotInvariant => words(
            "NotInvariant",
            "this step is a waiting-for or a response",
            "only invariants can be cited",
        ),
        Kind::WrongCount => words(
            "WrongCount",
            "the list has another length than the goal has levels behind `==>`",
            "write one formula for each, the highest first",
        ),
        Kind::UnknownTransition => words(
            "UnknownTransition",
            "no transition has this name",
            "it is the label of a statement; of a cooperation, `label.entry` or `label.exit`",
        ),
        Kind::UnfairHelper => words(
            "UnfairHelper",
            "a helper has to be just, and a `noncritical` may be stayed in for ever",
            "nothing that waits for it can be promised: take another helper",
        ),
        Kind::NotCompassionate => words(
            "NotCompassionate",
            "a group has to be a `request`",
            "take `just` or `chain`, or model the wait by a semaphore",
        ),
        _ => words(
            "NoHelper",
            "this node has neither group nor helper",
            "name the transition that leads on: `helper LABEL`",
        ),
    }
}

fn of_drawings(kind: Kind) -> KindWords {
    match kind {
        Kind::UnknownNode => words(
            "UnknownNode",
            "no node in front of this edge has this number, or the goal has fewer levels",
            "write nodes before their edges",
        ),
        Kind::Upward => words(
            "Upward",
            "this edge leads to a higher number, or from the terminal",
            "number the nodes so that steps lead down, or draw a rank diagram",
        ),
        _ => words(
            "NoTerminal",
            "this drawing has no terminal",
            "add `terminal: FORMULA;`, first",
        ),
    }
}

/// What is refused of any text, and of schedules.
fn of_texts(kind: Kind) -> KindWords {
    match kind {
        Kind::Syntax => words("Syntax", "no text goes on so", ""),
        Kind::BadByte => words("BadByte", "no token begins with this character", ""),
        Kind::LongNumber => words(
            "LongNumber",
            "this numeral is past 2^30, the largest",
            "use smaller ones, or a variable that an invariant bounds",
        ),
        Kind::Unset => words(
            "Unset",
            "a variable has no value where the moves begin",
            "each needs one, also where `where` leaves no choice",
        ),
        Kind::Moves => words(
            "Limit",
            "there are 1,000 moves before this one, which is the most",
            "play a shorter run",
        ),
        _ => words(
            "Limit",
            "this passes a limit",
            "split it: a program by groups, a claim or a proof into several steps",
        ),
    }
}

/// What is told of a kind of fault in a text of this reader.
pub(crate) fn told_of(reader: &Reader, kind: Kind) -> KindWords {
    match kind {
        Kind::Unknown => unknown(reader),
        Kind::Twice => twice(reader),
        Kind::WrongType | Kind::NonLinear | Kind::TooLarge => of_types(kind),
        Kind::InputAssigned | Kind::SelectHead | Kind::SameTarget => of_types(kind),
        Kind::UnknownLemma | Kind::NotInvariant | Kind::WrongCount => of_steps(kind),
        Kind::UnknownTransition | Kind::UnfairHelper => of_steps(kind),
        Kind::NotCompassionate | Kind::NoHelper => of_steps(kind),
        Kind::UnknownNode | Kind::Upward | Kind::NoTerminal => of_drawings(kind),
        _ => of_texts(kind),
    }
}

//! What is meant by a token that stands where another is wanted. The help goes by both, and comes before the tables of `advice`,
//! which go by what is found alone.

use crate::source::Source;
use crate::texts::Reader;

const NO_CALLS: &str = "there are no calls";

const TAKEN: &str = "a semaphore is taken by `request s`";

const GIVEN_BACK: &str = "a semaphore is given back by `release s`";

const DECLARED: &str = "a variable is declared `local x: integer where x = 0;`";

/// What is said of `:=` where a comparison is wanted.
pub(crate) const COMPARED: &str = "`:=` assigns: a comparison is `=`";

const NO_RANGES: &str =
    "there are no ranges: `where` bounds a variable at the start, and an invariant says what holds later";

const EVENTUALLY: &str = "eventually is claimed by `p leads q within N`";

const BY_FIND: &str =
    "`by find` is for `milkhour find`, which looks for the bound; `verify` wants `within N by ..`";

/// The help for a name that no variable has, behind a word.
pub(crate) fn help_for_name(before: &str, name: &str) -> Option<&'static str> {
    match (before, name) {
        (_, "not") => Some("not is `~`"),
        ("leads", "to") => Some("it is `leads`, without `to`"),
        ("by", "find") => Some(
            "`by find` is for `milkhour find`, of responses and waiting-fors; an invariance has no `by` there",
        ),
        _ => None,
    }
}

/// The words round a fault, in their order.
#[derive(Clone, Copy)]
struct Around<'a> {
    earlier: &'a str,
    before: &'a str,
    found: &'a str,
    next: &'a str,
}

fn words_around<'a>(source: &Source<'a>, place: u64) -> Around<'a> {
    Around {
        earlier: source.word_before(place, 2),
        before: source.word_before(place, 1),
        found: source.word_at(place),
        next: source.word(source.index_at(place).saturating_add(1)),
    }
}

/// Whether a word is among those that may stand there.
pub(crate) fn wants(wanted: &[String], word: &str) -> bool {
    wanted.iter().any(|other| other.as_str() == word)
}

fn instead_of_do(words: Around) -> Option<&'static str> {
    match (words.before, words.found) {
        ("forever", "[" | "{") => Some("a loop is `loop forever do ..`"),
        (_, "[" | "{") => Some("a loop is `while .. do ..`"),
        _ => None,
    }
}

fn instead_of_then(words: Around) -> Option<&'static str> {
    match words.found {
        "[" | "{" => Some("a choice is `if .. then .. else .. fi`"),
        _ => None,
    }
}

/// Where a process was begun, as it seems.
fn instead_of_colons(words: Around) -> Option<&'static str> {
    match (words.before, words.found, words.next) {
        ("int" | "bool" | "var", _, _) => Some(DECLARED),
        (_, ":", "integer" | "boolean" | "int" | "bool") => Some(DECLARED),
        (_, "[" | "{", _) => Some("a process is `NAME :: [ .. ]`"),
        _ => None,
    }
}

/// Where a name began a statement.
fn instead_of_assignment(words: Around) -> Option<&'static str> {
    match (words.found, words.before) {
        ("+" | "-", _) => Some("a variable is raised by `x := x + 1`"),
        ("(", "P" | "acquire" | "down" | "lock") => Some(TAKEN),
        ("(", "V" | "signal" | "unlock" | "up") => Some(GIVEN_BACK),
        ("(", _) => Some(NO_CALLS),
        _ => None,
    }
}

fn begins_with_digit(word: &str) -> bool {
    match word.as_bytes().first() {
        Some(first) => first.is_ascii_digit(),
        None => false,
    }
}

/// What is written between two statements or declarations.
fn instead_of_semicolon(words: Around) -> Option<&'static str> {
    match (words.before, words.found) {
        (_, "(") => Some(NO_CALLS),
        ("integer" | "boolean", ":=") => None,
        (_, ":=") => Some(COMPARED),
        ("integer", found) if begins_with_digit(found) => Some(NO_RANGES),
        _ => None,
    }
}

fn instead_of_statement(words: Around) -> Option<&'static str> {
    match words.found {
        "wait" => Some("a semaphore is taken by `request s`; a condition is awaited by `await ..`"),
        "{" => Some("several statements stand in `[ ]`"),
        _ => None,
    }
}

fn in_program(words: Around, wanted: &[String]) -> Option<&'static str> {
    if wants(wanted, "`do`") {
        instead_of_do(words)
    } else if wants(wanted, "`then`") {
        instead_of_then(words)
    } else if wants(wanted, "`::`") {
        instead_of_colons(words)
    } else if wants(wanted, "`:=`") {
        instead_of_assignment(words)
    } else if wants(wanted, "a statement") {
        instead_of_statement(words)
    } else if wants(wanted, "`local`") && matches!(words.found, "integer" | "boolean") {
        Some(DECLARED)
    } else if wants(wanted, "`;`") {
        instead_of_semicolon(words)
    } else {
        None
    }
}

/// What begins a step without a name.
fn unnamed(claim: &str) -> Option<&'static str> {
    match claim {
        "invariant" => Some("a step has a name: `invariant NAME: ..`"),
        "waiting" => Some("a step has a name: `waiting NAME: ..`"),
        "response" => Some("a step has a name: `response NAME: ..`"),
        _ => None,
    }
}

/// Signs of temporal logic where a formula is wanted.
fn instead_of_formula(words: Around) -> Option<&'static str> {
    match (words.before, words.found, words.next) {
        (_, "[", "]") => Some("an invariant is claimed of every state, without a box"),
        (_, "<", ">") => Some(EVENTUALLY),
        ("=", ">", "<") => Some(EVENTUALLY),
        _ => None,
    }
}

fn in_proof(words: Around, wanted: &[String]) -> Option<&'static str> {
    if matches!(
        (words.before, words.found, words.next),
        (_, "by", "find") | ("by", "find", _)
    ) {
        Some(BY_FIND)
    } else if wants(wanted, "`:`") {
        unnamed(words.earlier)
    } else if wants(wanted, "a name") && words.next != ":" {
        unnamed(words.before)
    } else if wants(wanted, "an expression") {
        instead_of_formula(words)
    } else {
        None
    }
}

fn in_schedule(words: Around) -> Option<&'static str> {
    match words.found {
        ":=" => Some("a value is given by `=`"),
        _ => None,
    }
}

/// The help for what is found where something else is wanted.
pub(crate) fn help_instead(
    reader: &Reader,
    source: &Source,
    place: u64,
    wanted: &[String],
) -> Option<&'static str> {
    let words = words_around(source, place);
    match reader {
        Reader::Program => in_program(words, wanted),
        Reader::Proof(_) => in_proof(words, wanted),
        Reader::Schedule(_) => in_schedule(words),
    }
}

//! What a line of input chooses: the number or the name of a listed move, idling, or a word of the session itself. A number is the
//! place in the list, counted from 1; where it isn't one, what is named by it is looked for.

ghost use Rattle.std.specs.Prelude.{◌≡◌, IfSome};
ghost use Rattle.possible_moves.specs.Choices.{IsOffered, IsChoiceOf};

use proof_reports::MoveReport;

/// What a line of input asks for.
#[derive(Clone, Copy, Debug, PartialEq, Eq)]
pub enum Choice<'a> {
    /// This move.
    Take(&'a str),
    /// The state before.
    Back,
    /// The end of the session.
    Quit,
    /// Nothing: the line is empty.
    Nothing,
    /// None of these.
    Unknown,
}

/// The move at a place, counted from 1.
fn numbered<'a>(moves: &'a [MoveReport], word: &str) -> Option<&'a str>
    ensures { IfSome result (λ name. IsOffered moves.now name.now) }
{
    let place = word.parse::<usize>().ok()?.checked_sub(1)?;
    Some(moves.get(place)?.name.as_str())
}

/// The move of a name.
fn named<'a>(moves: &'a [MoveReport], word: &str) -> Option<&'a str>
    ensures { IfSome result (λ name. IsOffered moves.now name.now) }
{
    for listed in moves {
        if listed.name.as_str() == word {
            return Some(listed.name.as_str());
        }
    }
    None
}

/// What a line asks for, where these moves may be taken.
pub fn choice_of<'a>(moves: &'a [MoveReport], line: &str) -> Choice<'a>
    ensures { IsChoiceOf moves.now result }
{
    let word = line.trim();
    if let Some(name) = numbered(moves, word) {
        return Choice::Take(name);
    }
    if let Some(name) = named(moves, word) {
        return Choice::Take(name);
    }
    match word {
        "-" => Choice::Take("-"),
        "" => Choice::Nothing,
        "back" => Choice::Back,
        "quit" => Choice::Quit,
        _ => Choice::Unknown,
    }
}

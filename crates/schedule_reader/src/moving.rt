//! Moves: each names a transition of the program.

ghost use Rattle.std.specs.Prelude.{◌≡◌, ◌≤◌, IfOk};
ghost use Rattle.st_tokens.specs.Stream.{stream};
ghost use Rattle.st_program.specs.Plain.{plain_kind, plain_children};
ghost use Rattle.st_reading.specs.Reading.{Reads, size};
ghost use Rattle.st_reading.specs.Faults.{name_view};
ghost use Rattle.schedule_reader.specs.Faults.{see};
ghost use Rattle.schedule_reader.specs.Moves.{opening_in, part_of, has_part, step_of, statement_of, named_by, move_of, next_move_of};

use crate::fault::ScheduleFault;
use assertions::{labelled, part_named};
use st_form::{Part, TransName};
use st_program::{Kind, NameTable, Program};
use st_reading::{Mark, RawName, Sign, advance, ahead, expect, is, is_name, name, numeral_in};
use st_tokens::Tokens;

/// How many moves a schedule may have.
const MOVES: usize = 1_000;

/// What a move begins with.
#[derive(Clone, Copy, Debug, PartialEq, Eq)]
pub enum Opening {
    /// `-`.
    Idling,
    /// The label of a statement.
    Label,
    /// The number of a statement, counted from 1.
    Number(u32),
}

/// What a move begins with, if one begins so.
pub fn opening_in(sign: Sign) -> Option<Opening>
    ensures { result ≡ opening_in sign }
{
    if is(sign, Mark::Minus) {
        return Some(Opening::Idling);
    }
    if is_name(sign) {
        return Some(Opening::Label);
    }
    match numeral_in(sign) {
        Some(number) => Some(Opening::Number(number)),
        None => None,
    }
}

/// Which part of a statement is named; none where the name behind the `.` is that of no part.
#[tactic(auto, unfolding(crate::specs::Moves::part_of))]
fn part(tokens: &mut Tokens) -> Result<Option<Part>, ScheduleFault>
    ensures reads { Reads see (λ part. part) result (stream tokens.new) (part_of (stream tokens.old)) }
    ensures shrinks { IfOk result (λ _. size (stream tokens.new) ≤ size (stream tokens.old)) }
{
    if !is(ahead(tokens), Mark::Dot) {
        return Ok(Some(Part::Whole));
    }
    advance(tokens);
    let label = name(tokens)?;
    Ok(part_named(label.text))
}

/// Whether a statement has a transition for this part of it.
#[tactic(auto, using(st_program::proofs::Rows::kinds))]
fn has_part(kind: &Kind, part: Part) -> bool
    ensures { result ≡ has_part (plain_kind kind.now) part }
{
    match kind {
        Kind::Block(_) | Kind::Select(_) => false,
        Kind::Cooperate(_) => !matches!(part, Part::Whole),
        Kind::Skip | Kind::Critical | Kind::Noncritical => matches!(part, Part::Whole),
        Kind::Assign(_) | Kind::Await(_) | Kind::Request(_) => matches!(part, Part::Whole),
        Kind::Release(_) | Kind::Group(_) => matches!(part, Part::Whole),
        Kind::If { .. } | Kind::While { .. } => matches!(part, Part::Whole),
    }
}

/// The transition that is this part of a statement.
fn step(program: &Program, occ: u32, part: Part) -> Option<TransName>
    ensures { result ≡ step_of (plain_children program.now.processes) occ part }
{
    let stmt = program.statement(occ)?;
    if has_part(&stmt.kind, part) {
        Some(TransName::Step { occ, part })
    } else {
        None
    }
}

/// The occurrence of the statement that is named, if it is one.
fn statement(names: &NameTable, opening: Opening, name: &RawName<'_>) -> Option<u32>
    ensures { result ≡ statement_of names.now opening (name_view name.now) }
{
    match opening {
        Opening::Idling => None,
        Opening::Label => labelled(names, name.text),
        Opening::Number(number) => number.checked_sub(1),
    }
}

/// The transition that is named.
fn named(
    names: &NameTable,
    program: &Program,
    opening: Opening,
    name: &RawName<'_>,
    part: Option<Part>,
) -> Option<TransName>
    ensures { result ≡ named_by names.now (plain_children program.now.processes) opening (name_view name.now) part }
{
    step(program, statement(names, opening, name)?, part?)
}

/// A move behind the token that it begins with. It is judged when it is whole: where no `.` stands there, before what does.
#[tactic(auto, unfolding(crate::specs::Moves::move_of))]
fn read_move(
    names: &NameTable,
    program: &Program,
    opening: Opening,
    first: &RawName<'_>,
    tokens: &mut Tokens<'_>,
) -> Result<TransName, ScheduleFault>
    ensures reads { Reads see (λ m. m) result (stream tokens.new) (move_of names.now (plain_children program.now.processes) opening (name_view first.now) (stream tokens.old)) }
    ensures shrinks { IfOk result (λ _. size (stream tokens.new) ≤ size (stream tokens.old)) }
{
    if opening == Opening::Idling {
        return Ok(TransName::Idle);
    }
    let part = part(tokens)?;
    match named(names, program, opening, first, part) {
        Some(name) => Ok(name),
        None => Err(ScheduleFault::UnknownTransition(first.place)),
    }
}

/// A further move and its `;`, behind the token that it begins with.
///
/// The 1,001st move is refused where it begins, and so is a move that names no transition; what breaks further on comes later.
#[tactic(auto, unfolding(crate::specs::Moves::next_move_of))]
pub fn next_move(
    names: &NameTable,
    program: &Program,
    opening: Opening,
    first: &RawName<'_>,
    moves: &mut Vec<TransName>,
    tokens: &mut Tokens<'_>,
) -> Result<(), ScheduleFault>
    ensures reads { Reads see (λ _. moves.new.items) result (stream tokens.new) (next_move_of names.now (plain_children program.now.processes) opening (name_view first.now) moves.old.items (stream tokens.old)) }
    ensures shrinks { IfOk result (λ _. size (stream tokens.new) ≤ size (stream tokens.old)) }
{
    if moves.len() >= MOVES {
        return match read_move(names, program, opening, first, tokens) {
            Err(ScheduleFault::UnknownTransition(place)) => {
                Err(ScheduleFault::UnknownTransition(place))
            }
            Err(ScheduleFault::Memory) => Err(ScheduleFault::Memory),
            _ => Err(ScheduleFault::Moves(first.place)),
        };
    }
    let name = read_move(names, program, opening, first, tokens)?;
    expect(tokens, Mark::Semicolon)?;
    moves.push(name)?;
    Ok(())
}

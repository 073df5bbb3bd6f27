//! Statements. `count` is the number of statements so far, `room` how many more may stand round the statement
//! that is read: the recursion ends since it falls. The statements of a list are read by a loop.

ghost use Rattle.std.specs.Prelude.{◌≡◌, ℕ, ◌≤◌, true};
ghost use Rattle.st_tokens.specs.Stream.{stream};
ghost use Rattle.st_reading.specs.declared.mark.Mark.TheVariants as marks;
ghost use Rattle.st_reading.specs.Reading.{Reads, size, linked, expected, then_reads};
ghost use Rattle.st_reading.specs.Faults.{see, name_view};
ghost use Rattle.spl_parser.specs.Begun.{begun_view, fresh};
ghost use Rattle.spl_parser.specs.Item.{item_view};
ghost use Rattle.spl_parser.specs.ProgramTree.{statement_view, statement_views, action_view, label_view, option_branch, while_do, forever, block, select, cooperate, group, statements, bodies};
ghost use Rattle.spl_parser.specs.Statements.{sequence_of, selection_of, item_of, children_of, branch_of, conditional_of, action_of, bare_of, named_of, assigned_of, statement_of, doing, enclosed};
ghost use Rattle.spl_parser.specs.Programs.{value_of, lower_of, usual};

use crate::begun::{Begun, front_place, goes_on};
use crate::bodies::children;
use crate::item::Item;
use crate::limits::STATEMENTS;
use crate::lists::{all_assigned, right_side, value};
use crate::made::one;
use crate::raw::{RawKind, RawStatement};
use crate::sign::{Start, start_of};
use st_reading::{
    Mark, ParseFault, RawName, advance, ahead, expect, is, is_name, name_ahead, place_of, refusal,
};
use st_tokens::{LimitKind, Tokens};
use std::alloc::Global;

/// An assignment that has no label, behind the name on its left.
#[tactic(auto, unfolding(crate::specs::Statements::assigned_of))]
fn assigned<'a>(
    alloc: Global,
    name: RawName<'a>,
    tokens: &mut Tokens<'a>,
) -> Result<RawStatement<'a>, ParseFault>
    ensures reads { (n : ℕ) → Reads see (λ x. (statement_view x, n)) result (stream tokens.new) (assigned_of (value_of usual) (name_view name.entry) n (stream tokens.old)) }
    ensures shrinks { size (stream tokens.new) ≤ size (stream tokens.old) }
{
    let value = right_side(alloc, tokens)?;
    Ok(RawStatement {
        label: None,
        place: name.place,
        kind: RawKind::Assign(name, value),
    })
}

/// A statement inside others, if the limits let it begin.
#[cycle(statement)]
#[tactic(auto, unfolding(crate::specs::Statements::inside))]
pub fn inside<'a>(
    alloc: Global,
    room: u32,
    begun: Begun<'a>,
    count: &mut u32,
    tokens: &mut Tokens<'a>,
) -> Result<RawStatement<'a>, ParseFault>
    ensures reads { Reads see (λ x. (statement_view x, count.new)) result (stream tokens.new) (lower_of usual room (begun_view begun.entry) count.old (stream tokens.old)) }
    ensures shrinks { size (stream tokens.new) ≤ size (stream tokens.old) }
{
    if !goes_on(begun, ahead(tokens)) {
        return Err(refusal(tokens));
    }
    let place = front_place(begun, place_of(tokens));
    if *count >= STATEMENTS {
        return Err(ParseFault::Limit(LimitKind::Statements, place));
    }
    if room == 0 {
        return Err(ParseFault::Limit(LimitKind::Nesting, place));
    }
    *count += 1;
    statement(alloc, room - 1, begun, count, tokens)
}

/// A statement inside others, of which nothing was read before.
#[cycle(statement)]
pub fn anew<'a>(
    alloc: Global,
    room: u32,
    grouped: bool,
    count: &mut u32,
    tokens: &mut Tokens<'a>,
) -> Result<RawStatement<'a>, ParseFault>
    ensures reads { Reads see (λ x. (statement_view x, count.new)) result (stream tokens.new) (lower_of usual room (fresh grouped) count.old (stream tokens.old)) }
    ensures shrinks { size (stream tokens.new) ≤ size (stream tokens.old) }
{
    inside(alloc, room, Begun::Fresh(grouped), count, tokens)
}

/// A statement, of which something may have been read before.
#[cycle(statement)]
#[tactic(auto, unfolding(crate::specs::Statements::statement_of))]
fn statement<'a>(
    alloc: Global,
    room: u32,
    begun: Begun<'a>,
    count: &mut u32,
    tokens: &mut Tokens<'a>,
) -> Result<RawStatement<'a>, ParseFault>
    ensures reads { Reads see (λ x. (statement_view x, count.new)) result (stream tokens.new) (statement_of (value_of usual) (lower_of usual room) (begun_view begun.entry) count.old (stream tokens.old)) }
    ensures shrinks { size (stream tokens.new) ≤ size (stream tokens.old) }
{
    match begun {
        Begun::Fresh(grouped) => {
            if grouped {
                bare(alloc, room, true, None, count, tokens)
            } else if is_name(ahead(tokens)) {
                let name = name_ahead(tokens);
                advance(tokens);
                named(alloc, room, name, count, tokens)
            } else {
                bare(alloc, room, false, None, count, tokens)
            }
        }
        Begun::AfterName(name) => assigned(alloc, name, tokens),
        Begun::AfterLabel(label) => bare(alloc, room, false, Some(label), count, tokens),
    }
}

/// A statement behind a name: its label, or the left side of an assignment.
#[cycle(statement)]
#[tactic(auto, unfolding(crate::specs::Statements::named_of))]
fn named<'a>(
    alloc: Global,
    room: u32,
    name: RawName<'a>,
    count: &mut u32,
    tokens: &mut Tokens<'a>,
) -> Result<RawStatement<'a>, ParseFault>
    ensures reads { Reads see (λ x. (statement_view x, count.new)) result (stream tokens.new) (named_of (value_of usual) (lower_of usual room) (name_view name.entry) count.old (stream tokens.old)) }
    ensures shrinks { size (stream tokens.new) ≤ size (stream tokens.old) }
{
    if is(ahead(tokens), Mark::Colon) {
        advance(tokens);
        bare(alloc, room, false, Some(name), count, tokens)
    } else {
        assigned(alloc, name, tokens)
    }
}

/// A statement behind its label.
#[cycle(statement)]
#[tactic(auto, unfolding(crate::specs::Statements::bare_of))]
fn bare<'a>(
    alloc: Global,
    room: u32,
    grouped: bool,
    label: Option<RawName<'a>>,
    count: &mut u32,
    tokens: &mut Tokens<'a>,
) -> Result<RawStatement<'a>, ParseFault>
    ensures reads { Reads see (λ x. (statement_view x, count.new)) result (stream tokens.new) (bare_of (value_of usual) (lower_of usual room) grouped (label_view label.entry) count.old (stream tokens.old)) }
    ensures shrinks { size (stream tokens.new) ≤ size (stream tokens.old) }
{
    let Some(start) = start_of(ahead(tokens)) else {
        return Err(refusal(tokens));
    };
    let place = place_of(tokens);
    let name = name_ahead(tokens);
    advance(tokens);
    let kind = action(alloc, room, grouped, name, start, count, tokens)?;
    Ok(RawStatement { label, place, kind })
}

/// What a statement is, behind its first token; where that is a name, it is `name`.
#[cycle(statement)]
#[tactic(auto, unfolding(crate::specs::Statements::action_of), using(crate::proofs::StatementRows::actions))]
fn action<'a>(
    alloc: Global,
    room: u32,
    grouped: bool,
    name: RawName<'a>,
    start: Start,
    count: &mut u32,
    tokens: &mut Tokens<'a>,
) -> Result<RawKind<'a>, ParseFault>
    ensures reads { Reads see (λ x. (action_view x, count.new)) result (stream tokens.new) (action_of (value_of usual) (lower_of usual room) grouped count.old (name_view name.entry) start (stream tokens.old)) }
    ensures shrinks { size (stream tokens.new) ≤ size (stream tokens.old) }
{
    match start {
        Start::Named => Ok(RawKind::Assign(name, right_side(alloc, tokens)?)),
        Start::Listed => Ok(all_assigned(alloc, tokens)?),
        Start::Skip => Ok(RawKind::Skip),
        Start::Critical => Ok(RawKind::Critical),
        Start::Noncritical => Ok(RawKind::Noncritical),
        Start::Await => Ok(RawKind::Await(value(alloc, tokens)?)),
        Start::Request => Ok(RawKind::Request(st_reading::name(tokens)?)),
        Start::Release => Ok(RawKind::Release(st_reading::name(tokens)?)),
        Start::If => conditional(alloc, room, grouped, count, tokens),
        Start::While => while_loop(alloc, room, count, tokens),
        Start::Loop => endless_loop(alloc, room, count, tokens),
        Start::Block => block(alloc, room, grouped, count, tokens),
        Start::Select => select(alloc, room, count, tokens),
        Start::Cooperate => cooperation(alloc, room, count, tokens),
        Start::Group => group(alloc, room, count, tokens),
    }
}

/// A statement inside others, as the one round it holds it.
#[cycle(statement)]
fn boxed<'a>(
    alloc: Global,
    room: u32,
    grouped: bool,
    count: &mut u32,
    tokens: &mut Tokens<'a>,
) -> Result<Box<RawStatement<'a>>, ParseFault>
    ensures reads { Reads see (λ x. (statement_view x.value, count.new)) result (stream tokens.new) (lower_of usual room (fresh grouped) count.old (stream tokens.old)) }
    ensures shrinks { size (stream tokens.new) ≤ size (stream tokens.old) }
{
    let statement = anew(alloc, room, grouped, count, tokens)?;
    Ok(Box::new(alloc, statement)?)
}

/// A loop with a test, behind `while`.
#[cycle(statement)]
fn while_loop<'a>(
    alloc: Global,
    room: u32,
    count: &mut u32,
    tokens: &mut Tokens<'a>,
) -> Result<RawKind<'a>, ParseFault>
    ensures reads { Reads see (λ x. (action_view x, count.new)) result (stream tokens.new) (then_reads (value_of usual) (λ e. doing (value_of usual) (lower_of usual room) (while_do e) count.old) (stream tokens.old)) }
    ensures shrinks { size (stream tokens.new) ≤ size (stream tokens.old) }
{
    let test = value(alloc, tokens)?;
    expect(tokens, Mark::Do)?;
    let body = boxed(alloc, room, false, count, tokens)?;
    Ok(RawKind::While { test, body })
}

/// A loop without end, behind `loop`.
#[cycle(statement)]
fn endless_loop<'a>(
    alloc: Global,
    room: u32,
    count: &mut u32,
    tokens: &mut Tokens<'a>,
) -> Result<RawKind<'a>, ParseFault>
    ensures reads { Reads see (λ x. (action_view x, count.new)) result (stream tokens.new) (then_reads (expected marks.Forever) (λ m. doing (value_of usual) (lower_of usual room) forever count.old) (stream tokens.old)) }
    ensures shrinks { size (stream tokens.new) ≤ size (stream tokens.old) }
{
    expect(tokens, Mark::Forever)?;
    expect(tokens, Mark::Do)?;
    Ok(RawKind::Loop(boxed(alloc, room, false, count, tokens)?))
}

/// A block, behind `[`.
#[cycle(statement)]
#[tactic(auto, using(crate::proofs::StatementRows::actions))]
fn block<'a>(
    alloc: Global,
    room: u32,
    grouped: bool,
    count: &mut u32,
    tokens: &mut Tokens<'a>,
) -> Result<RawKind<'a>, ParseFault>
    ensures reads { Reads see (λ x. (action_view x, count.new)) result (stream tokens.new) (enclosed (λ xs. block (statements xs)) marks.CloseBlock (sequence_of (value_of usual) (lower_of usual room) grouped count.old) (stream tokens.old)) }
    ensures shrinks { size (stream tokens.new) ≤ size (stream tokens.old) }
{
    let statements = sequence(alloc, room, grouped, count, tokens)?;
    expect(tokens, Mark::CloseBlock)?;
    Ok(RawKind::Block(statements))
}

/// A group, behind `<`.
#[cycle(statement)]
#[tactic(auto, using(crate::proofs::StatementRows::actions))]
fn group<'a>(
    alloc: Global,
    room: u32,
    count: &mut u32,
    tokens: &mut Tokens<'a>,
) -> Result<RawKind<'a>, ParseFault>
    ensures reads { Reads see (λ x. (action_view x, count.new)) result (stream tokens.new) (enclosed (λ xs. group (statements xs)) marks.CloseGroup (sequence_of (value_of usual) (lower_of usual room) true count.old) (stream tokens.old)) }
    ensures shrinks { size (stream tokens.new) ≤ size (stream tokens.old) }
{
    let statements = sequence(alloc, room, true, count, tokens)?;
    expect(tokens, Mark::CloseGroup)?;
    Ok(RawKind::Group(statements))
}

/// A selection with its brackets.
#[cycle(statement)]
#[tactic(auto, using(crate::proofs::StatementRows::actions))]
fn select<'a>(
    alloc: Global,
    room: u32,
    count: &mut u32,
    tokens: &mut Tokens<'a>,
) -> Result<RawKind<'a>, ParseFault>
    ensures reads { Reads see (λ x. (action_view x, count.new)) result (stream tokens.new) (then_reads (expected marks.OpenBlock) (λ m. enclosed (λ xs. select (statements xs)) marks.CloseBlock (selection_of (value_of usual) (lower_of usual room) count.old)) (stream tokens.old)) }
    ensures shrinks { size (stream tokens.new) ≤ size (stream tokens.old) }
{
    expect(tokens, Mark::OpenBlock)?;
    let branches = selection(alloc, room, count, tokens)?;
    expect(tokens, Mark::CloseBlock)?;
    Ok(RawKind::Select(branches))
}

/// A cooperation, behind its first token.
#[cycle(statement)]
#[tactic(auto, using(crate::proofs::StatementRows::actions))]
fn cooperation<'a>(
    alloc: Global,
    room: u32,
    count: &mut u32,
    tokens: &mut Tokens<'a>,
) -> Result<RawKind<'a>, ParseFault>
    ensures reads { Reads see (λ x. (action_view x, count.new)) result (stream tokens.new) (enclosed (λ xs. cooperate (bodies xs)) marks.Coend (children_of (value_of usual) (lower_of usual room) count.old) (stream tokens.old)) }
    ensures shrinks { size (stream tokens.new) ≤ size (stream tokens.old) }
{
    let bodies = children(alloc, room, count, tokens)?;
    expect(tokens, Mark::Coend)?;
    Ok(RawKind::Cooperate(bodies))
}

/// A conditional, behind `if`.
#[cycle(statement)]
#[tactic(auto, unfolding(crate::specs::Statements::conditional_of))]
fn conditional<'a>(
    alloc: Global,
    room: u32,
    grouped: bool,
    count: &mut u32,
    tokens: &mut Tokens<'a>,
) -> Result<RawKind<'a>, ParseFault>
    ensures reads { Reads see (λ x. (action_view x, count.new)) result (stream tokens.new) (conditional_of (value_of usual) (lower_of usual room) grouped count.old (stream tokens.old)) }
    ensures shrinks { size (stream tokens.new) ≤ size (stream tokens.old) }
{
    let test = value(alloc, tokens)?;
    expect(tokens, Mark::Then)?;
    let yes = boxed(alloc, room, grouped, count, tokens)?;
    let no = branch(alloc, room, grouped, count, tokens)?;
    expect(tokens, Mark::Fi)?;
    Ok(RawKind::If { test, yes, no })
}

/// The branch behind `else`, if there is one.
#[cycle(statement)]
#[tactic(auto, unfolding(crate::specs::Statements::branch_of))]
fn branch<'a>(
    alloc: Global,
    room: u32,
    grouped: bool,
    count: &mut u32,
    tokens: &mut Tokens<'a>,
) -> Result<Option<Box<RawStatement<'a>>>, ParseFault>
    ensures reads { Reads see (λ x. (option_branch x, count.new)) result (stream tokens.new) (branch_of (value_of usual) (lower_of usual room) grouped count.old (stream tokens.old)) }
    ensures shrinks { size (stream tokens.new) ≤ size (stream tokens.old) }
{
    if !is(ahead(tokens), Mark::Else) {
        return Ok(None);
    }
    advance(tokens);
    Ok(Some(boxed(alloc, room, grouped, count, tokens)?))
}

/// Further statements behind a mark.
#[cycle(statement)]
fn further<'a>(
    alloc: Global,
    room: u32,
    grouped: bool,
    mark: Mark,
    mut statements: Vec<RawStatement<'a>>,
    count: &mut u32,
    tokens: &mut Tokens<'a>,
) -> Result<Vec<RawStatement<'a>>, ParseFault>
    ensures reads { Reads see (λ v. (statement_views v.items, count.new)) result (stream tokens.new) (linked mark (lower_of usual room (fresh grouped)) (statement_views statements.entry.items, count.old) (stream tokens.old)) }
    ensures shrinks { size (stream tokens.new) ≤ size (stream tokens.old) }
{
    'chain: while is(ahead(tokens), mark) {
        advance(tokens);
        let next = anew(alloc, room, grouped, count, tokens)?;
        statements.push(next)?;
    }
    Ok(statements)
}

/// Statements with `;` between them.
#[cycle(statement)]
#[tactic(auto, unfolding(crate::specs::Statements::sequence_of))]
fn sequence<'a>(
    alloc: Global,
    room: u32,
    grouped: bool,
    count: &mut u32,
    tokens: &mut Tokens<'a>,
) -> Result<Vec<RawStatement<'a>>, ParseFault>
    ensures reads { Reads see (λ v. (statement_views v.items, count.new)) result (stream tokens.new) (sequence_of (value_of usual) (lower_of usual room) grouped count.old (stream tokens.old)) }
    ensures shrinks { size (stream tokens.new) ≤ size (stream tokens.old) }
{
    let first = anew(alloc, room, grouped, count, tokens)?;
    let statements = one(alloc, first)?;
    further(
        alloc,
        room,
        grouped,
        Mark::Semicolon,
        statements,
        count,
        tokens,
    )
}

/// At least two statements with `or` between them.
#[cycle(statement)]
#[tactic(auto, unfolding(crate::specs::Statements::selection_of))]
fn selection<'a>(
    alloc: Global,
    room: u32,
    count: &mut u32,
    tokens: &mut Tokens<'a>,
) -> Result<Vec<RawStatement<'a>>, ParseFault>
    ensures reads { Reads see (λ v. (statement_views v.items, count.new)) result (stream tokens.new) (selection_of (value_of usual) (lower_of usual room) count.old (stream tokens.old)) }
    ensures shrinks { size (stream tokens.new) ≤ size (stream tokens.old) }
{
    let first = anew(alloc, room, false, count, tokens)?;
    let mut branches = one(alloc, first)?;
    expect(tokens, Mark::Either)?;
    let second = anew(alloc, room, false, count, tokens)?;
    branches.push(second)?;
    further(alloc, room, false, Mark::Either, branches, count, tokens)
}

/// What stands behind a `;` in a body. A name may be a label, the label of the end, or the left side of an assignment.
#[cycle(statement)]
#[tactic(auto, unfolding(crate::specs::Statements::item_of))]
pub fn item<'a>(
    alloc: Global,
    room: u32,
    count: &mut u32,
    tokens: &mut Tokens<'a>,
) -> Result<Item<'a>, ParseFault>
    ensures reads { Reads see (λ x. (item_view x, count.new)) result (stream tokens.new) (item_of (value_of usual) (lower_of usual room) count.old (stream tokens.old)) }
    ensures shrinks { size (stream tokens.new) ≤ size (stream tokens.old) }
{
    if !is_name(ahead(tokens)) {
        let statement = anew(alloc, room, false, count, tokens)?;
        return Ok(Item::Statement(statement));
    }
    let name = name_ahead(tokens);
    advance(tokens);
    if !is(ahead(tokens), Mark::Colon) {
        let statement = inside(alloc, room, Begun::AfterName(name), count, tokens)?;
        return Ok(Item::Statement(statement));
    }
    advance(tokens);
    if is(ahead(tokens), Mark::CloseBlock) {
        advance(tokens);
        return Ok(Item::Last(name));
    }
    let statement = inside(alloc, room, Begun::AfterLabel(name), count, tokens)?;
    Ok(Item::Statement(statement))
}

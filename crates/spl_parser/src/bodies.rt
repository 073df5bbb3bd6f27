//! Bodies of processes and children, and cooperations' children. They contain statements, and statements contain them, so `room`
//! falls here as in `statement`.

ghost use Rattle.std.specs.Prelude.{◌≡◌, ◌≤◌};
ghost use Rattle.st_tokens.specs.Stream.{stream};
ghost use Rattle.st_reading.specs.declared.mark.Mark.TheVariants as marks;
ghost use Rattle.st_reading.specs.Reading.{Reads, size, linked};
ghost use Rattle.st_reading.specs.Faults.{see};
ghost use Rattle.spl_parser.specs.ProgramTree.{statement_views, body_view, body_views};
ghost use Rattle.spl_parser.specs.Statements.{rest_of_body, body_of, child_of, children_of};
ghost use Rattle.spl_parser.specs.Programs.{value_of, lower_of, usual};

use crate::item::Item;
use crate::made::one;
use crate::raw::{RawBody, RawStatement};
use crate::statement::{anew, item};
use st_reading::{Mark, ParseFault, advance, ahead, expect, is};
use st_tokens::Tokens;
use std::alloc::Global;

/// The rest of a body, behind some of its statements.
#[cycle(statement)]
fn rest_of_body<'a>(
    alloc: Global,
    room: u32,
    mut statements: Vec<RawStatement<'a>>,
    count: &mut u32,
    tokens: &mut Tokens<'a>,
) -> Result<RawBody<'a>, ParseFault>
    ensures reads { Reads see (λ x. (body_view x, count.new)) result (stream tokens.new) (rest_of_body (value_of usual) (lower_of usual room) (statement_views statements.entry.items, count.old) (stream tokens.old)) }
    ensures shrinks { size (stream tokens.new) ≤ size (stream tokens.old) }
{
    'chain: while is(ahead(tokens), Mark::Semicolon) {
        advance(tokens);
        match item(alloc, room, count, tokens)? {
            Item::Last(name) => {
                return Ok(RawBody {
                    statements,
                    end: Some(name),
                });
            }
            Item::Statement(statement) => statements.push(statement)?,
        }
    }
    expect(tokens, Mark::CloseBlock)?;
    Ok(RawBody {
        statements,
        end: None,
    })
}

/// Statements up to a `]`, with the label of their end.
#[cycle(statement)]
#[tactic(auto, unfolding(crate::specs::Statements::body_of))]
pub fn body<'a>(
    alloc: Global,
    room: u32,
    count: &mut u32,
    tokens: &mut Tokens<'a>,
) -> Result<RawBody<'a>, ParseFault>
    ensures reads { Reads see (λ x. (body_view x, count.new)) result (stream tokens.new) (body_of (value_of usual) (lower_of usual room) count.old (stream tokens.old)) }
    ensures shrinks { size (stream tokens.new) ≤ size (stream tokens.old) }
{
    let first = anew(alloc, room, false, count, tokens)?;
    let statements = one(alloc, first)?;
    rest_of_body(alloc, room, statements, count, tokens)
}

/// A child of a cooperation.
#[cycle(statement)]
#[tactic(auto, unfolding(crate::specs::Statements::child_of))]
fn child<'a>(
    alloc: Global,
    room: u32,
    count: &mut u32,
    tokens: &mut Tokens<'a>,
) -> Result<RawBody<'a>, ParseFault>
    ensures reads { Reads see (λ x. (body_view x, count.new)) result (stream tokens.new) (child_of (value_of usual) (lower_of usual room) count.old (stream tokens.old)) }
    ensures shrinks { size (stream tokens.new) ≤ size (stream tokens.old) }
{
    expect(tokens, Mark::OpenBlock)?;
    body(alloc, room, count, tokens)
}

/// Further children behind `||`.
#[cycle(statement)]
fn further_children<'a>(
    alloc: Global,
    room: u32,
    mut bodies: Vec<RawBody<'a>>,
    count: &mut u32,
    tokens: &mut Tokens<'a>,
) -> Result<Vec<RawBody<'a>>, ParseFault>
    ensures reads { Reads see (λ v. (body_views v.items, count.new)) result (stream tokens.new) (linked marks.Bars (child_of (value_of usual) (lower_of usual room)) (body_views bodies.entry.items, count.old) (stream tokens.old)) }
    ensures shrinks { size (stream tokens.new) ≤ size (stream tokens.old) }
{
    'chain: while is(ahead(tokens), Mark::Bars) {
        advance(tokens);
        let next = child(alloc, room, count, tokens)?;
        bodies.push(next)?;
    }
    Ok(bodies)
}

/// At least two children with `||` between them.
#[cycle(statement)]
#[tactic(auto, unfolding(crate::specs::Statements::children_of))]
pub fn children<'a>(
    alloc: Global,
    room: u32,
    count: &mut u32,
    tokens: &mut Tokens<'a>,
) -> Result<Vec<RawBody<'a>>, ParseFault>
    ensures reads { Reads see (λ v. (body_views v.items, count.new)) result (stream tokens.new) (children_of (value_of usual) (lower_of usual room) count.old (stream tokens.old)) }
    ensures shrinks { size (stream tokens.new) ≤ size (stream tokens.old) }
{
    let first = child(alloc, room, count, tokens)?;
    let mut bodies = one(alloc, first)?;
    expect(tokens, Mark::Bars)?;
    let second = child(alloc, room, count, tokens)?;
    bodies.push(second)?;
    further_children(alloc, room, bodies, count, tokens)
}

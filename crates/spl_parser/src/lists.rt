//! Lists with commas between their items, and the right sides of assignments.

ghost use Rattle.std.specs.Prelude.{◌≡◌, ◌≤◌, map};
ghost use Rattle.st_tokens.specs.Stream.{stream};
ghost use Rattle.st_reading.specs.declared.mark.Mark.TheVariants as marks;
ghost use Rattle.st_reading.specs.Reading.{Reads, named, size, further};
ghost use Rattle.st_reading.specs.Faults.{see, name_view};
ghost use Rattle.expression_parser.specs.ExpressionTree.{expr_view, views};
ghost use Rattle.spl_parser.specs.ProgramTree.{action_view};
ghost use Rattle.spl_parser.specs.Statements.{right_side_of, listed_of, all_assigned_of};
ghost use Rattle.spl_parser.specs.Programs.{value_of, usual};

use crate::made::one;
use crate::raw::RawKind;
use expression_parser::{LEVELS, RawExpr, expression};
use st_reading::{Mark, ParseFault, RawName, advance, ahead, expect, is, name};
use st_tokens::Tokens;
use std::alloc::Global;

/// A formula or a sum of a program.
#[tactic(auto, unfolding(crate::specs::Programs::value_of))]
pub fn value<'a>(alloc: Global, tokens: &mut Tokens<'a>) -> Result<RawExpr<'a>, ParseFault>
    ensures reads { Reads see expr_view result (stream tokens.new) (value_of usual (stream tokens.old)) }
    ensures shrinks { size (stream tokens.new) ≤ size (stream tokens.old) }
{
    expression(alloc, false, LEVELS, tokens)
}

/// `:=` and what stands behind it.
#[tactic(auto, unfolding(crate::specs::Statements::right_side_of))]
pub fn right_side<'a>(alloc: Global, tokens: &mut Tokens<'a>) -> Result<RawExpr<'a>, ParseFault>
    ensures reads { Reads see expr_view result (stream tokens.new) (right_side_of (value_of usual) (stream tokens.old)) }
    ensures shrinks { size (stream tokens.new) ≤ size (stream tokens.old) }
{
    expect(tokens, Mark::Becomes)?;
    value(alloc, tokens)
}

/// Further names behind commas.
fn further_names<'a>(
    mut names: Vec<RawName<'a>>,
    tokens: &mut Tokens<'a>,
) -> Result<Vec<RawName<'a>>, ParseFault>
    ensures reads { Reads see (λ v. map name_view v.items) result (stream tokens.new) (further marks.Comma named (map name_view names.entry.items) (stream tokens.old)) }
    ensures shrinks { size (stream tokens.new) ≤ size (stream tokens.old) }
{
    'chain: while is(ahead(tokens), Mark::Comma) {
        advance(tokens);
        let next = name(tokens)?;
        names.push(next)?;
    }
    Ok(names)
}

/// At least two names, up to a `)`.
#[tactic(auto, unfolding(crate::specs::Statements::listed_of))]
fn listed_names<'a>(alloc: Global, tokens: &mut Tokens<'a>) -> Result<Vec<RawName<'a>>, ParseFault>
    ensures reads { Reads see (λ v. map name_view v.items) result (stream tokens.new) (listed_of named (stream tokens.old)) }
    ensures shrinks { size (stream tokens.new) ≤ size (stream tokens.old) }
{
    let first = name(tokens)?;
    let mut names = one(alloc, first)?;
    expect(tokens, Mark::Comma)?;
    let second = name(tokens)?;
    names.push(second)?;
    let names = further_names(names, tokens)?;
    expect(tokens, Mark::Close)?;
    Ok(names)
}

/// Further expressions behind commas.
fn further_values<'a>(
    alloc: Global,
    mut values: Vec<RawExpr<'a>>,
    tokens: &mut Tokens<'a>,
) -> Result<Vec<RawExpr<'a>>, ParseFault>
    ensures reads { Reads see (λ v. views v.items) result (stream tokens.new) (further marks.Comma (value_of usual) (views values.entry.items) (stream tokens.old)) }
    ensures shrinks { size (stream tokens.new) ≤ size (stream tokens.old) }
{
    'chain: while is(ahead(tokens), Mark::Comma) {
        advance(tokens);
        let next = value(alloc, tokens)?;
        values.push(next)?;
    }
    Ok(values)
}

/// At least two expressions, up to a `)`.
#[tactic(auto, unfolding(crate::specs::Statements::listed_of))]
fn listed_values<'a>(alloc: Global, tokens: &mut Tokens<'a>) -> Result<Vec<RawExpr<'a>>, ParseFault>
    ensures reads { Reads see (λ v. views v.items) result (stream tokens.new) (listed_of (value_of usual) (stream tokens.old)) }
    ensures shrinks { size (stream tokens.new) ≤ size (stream tokens.old) }
{
    let first = value(alloc, tokens)?;
    let mut values = one(alloc, first)?;
    expect(tokens, Mark::Comma)?;
    let second = value(alloc, tokens)?;
    values.push(second)?;
    let values = further_values(alloc, values, tokens)?;
    expect(tokens, Mark::Close)?;
    Ok(values)
}

/// An assignment to several variables, behind its first `(`.
#[tactic(auto, unfolding(crate::specs::Statements::all_assigned_of))]
pub fn all_assigned<'a>(alloc: Global, tokens: &mut Tokens<'a>) -> Result<RawKind<'a>, ParseFault>
    ensures reads { Reads see action_view result (stream tokens.new) (all_assigned_of (value_of usual) (stream tokens.old)) }
    ensures shrinks { size (stream tokens.new) ≤ size (stream tokens.old) }
{
    let targets = listed_names(alloc, tokens)?;
    expect(tokens, Mark::Becomes)?;
    let list = expect(tokens, Mark::Open)?;
    let values = listed_values(alloc, tokens)?;
    Ok(RawKind::AssignAll {
        targets,
        list,
        values,
    })
}

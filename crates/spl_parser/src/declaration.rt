//! Declarations, at the head of a program or a process. `variables` is the number of variables declared so far.

ghost use Rattle.std.specs.Prelude.{◌≡◌, ◌≤◌, map};
ghost use Rattle.st_tokens.specs.Stream.{stream};
ghost use Rattle.st_reading.specs.declared.mark.Mark.TheVariants as marks;
ghost use Rattle.st_reading.specs.Reading.{Reads, size, linked};
ghost use Rattle.st_reading.specs.Faults.{see, name_view};
ghost use Rattle.spl_parser.specs.ProgramTree.{declaration_view, declaration_views, initial_view};
ghost use Rattle.spl_parser.specs.Programs.{variable_of, names_of, type_of, initial_of, declaration_of, declarations_of, usual};

use crate::limits::VARIABLES;
use crate::lists::value;
use crate::raw::RawDeclaration;
use crate::sign::{kind, mode};
use expression_parser::RawExpr;
use st_reading::{
    Mark, ParseFault, RawName, advance, ahead, expect, is, is_name, name_ahead, place_of, refusal,
};
use st_tokens::{LimitKind, Tokens};
use std::alloc::Global;

/// A name that is declared.
#[tactic(auto, unfolding(crate::specs::Programs::variable_of))]
fn variable<'a>(variables: &mut u32, tokens: &mut Tokens<'a>) -> Result<RawName<'a>, ParseFault>
    ensures reads { Reads see (λ x. (name_view x, variables.new)) result (stream tokens.new) (variable_of usual variables.old (stream tokens.old)) }
    ensures shrinks { size (stream tokens.new) ≤ size (stream tokens.old) }
{
    if !is_name(ahead(tokens)) {
        return Err(refusal(tokens));
    }
    if *variables >= VARIABLES {
        return Err(ParseFault::Limit(LimitKind::Variables, place_of(tokens)));
    }
    *variables += 1;
    let name = name_ahead(tokens);
    advance(tokens);
    Ok(name)
}

/// Further names behind commas.
fn further_variables<'a>(
    mut names: Vec<RawName<'a>>,
    variables: &mut u32,
    tokens: &mut Tokens<'a>,
) -> Result<Vec<RawName<'a>>, ParseFault>
    ensures reads { Reads see (λ v. (map name_view v.items, variables.new)) result (stream tokens.new) (linked marks.Comma (variable_of usual) (map name_view names.entry.items, variables.old) (stream tokens.old)) }
    ensures shrinks { size (stream tokens.new) ≤ size (stream tokens.old) }
{
    'chain: while is(ahead(tokens), Mark::Comma) {
        advance(tokens);
        let next = variable(variables, tokens)?;
        names.push(next)?;
    }
    Ok(names)
}

/// Names with commas between them.
#[tactic(auto, unfolding(crate::specs::Programs::names_of))]
fn names<'a>(
    alloc: Global,
    variables: &mut u32,
    tokens: &mut Tokens<'a>,
) -> Result<Vec<RawName<'a>>, ParseFault>
    ensures reads { Reads see (λ v. (map name_view v.items, variables.new)) result (stream tokens.new) (names_of usual variables.old (stream tokens.old)) }
    ensures shrinks { size (stream tokens.new) ≤ size (stream tokens.old) }
{
    let first = variable(variables, tokens)?;
    let mut names = Vec::new(alloc);
    names.push(first)?;
    further_variables(names, variables, tokens)
}

/// A type: whether it is that of truth values.
#[tactic(auto, unfolding(crate::specs::Programs::type_of))]
fn type_of(tokens: &mut Tokens) -> Result<bool, ParseFault>
    ensures reads { Reads see (λ truth. truth) result (stream tokens.new) (type_of usual (stream tokens.old)) }
    ensures shrinks { size (stream tokens.new) ≤ size (stream tokens.old) }
{
    let Some(truth) = kind(ahead(tokens)) else {
        return Err(refusal(tokens));
    };
    advance(tokens);
    Ok(truth)
}

/// The formula behind `where`, if there is one.
#[tactic(auto, unfolding(crate::specs::Programs::initial_of))]
fn initial<'a>(alloc: Global, tokens: &mut Tokens<'a>) -> Result<Option<RawExpr<'a>>, ParseFault>
    ensures reads { Reads see initial_view result (stream tokens.new) (initial_of usual (stream tokens.old)) }
    ensures shrinks { size (stream tokens.new) ≤ size (stream tokens.old) }
{
    if !is(ahead(tokens), Mark::Where) {
        return Ok(None);
    }
    advance(tokens);
    let initial = value(alloc, tokens)?;
    Ok(Some(initial))
}

/// A declaration, behind its `in`, `local` or `out`.
#[tactic(auto, unfolding(crate::specs::Programs::declaration_of))]
fn declaration<'a>(
    alloc: Global,
    input: bool,
    variables: &mut u32,
    tokens: &mut Tokens<'a>,
) -> Result<RawDeclaration<'a>, ParseFault>
    ensures reads { Reads see (λ d. (declaration_view d, variables.new)) result (stream tokens.new) (declaration_of usual input variables.old (stream tokens.old)) }
    ensures shrinks { size (stream tokens.new) ≤ size (stream tokens.old) }
{
    let names = names(alloc, variables, tokens)?;
    expect(tokens, Mark::Colon)?;
    let truth = type_of(tokens)?;
    let initial = initial(alloc, tokens)?;
    expect(tokens, Mark::Semicolon)?;
    Ok(RawDeclaration {
        input,
        names,
        truth,
        initial,
    })
}

/// All declarations that stand there.
#[tactic(auto, unfolding(crate::specs::Programs::declarations_of))]
pub fn declarations<'a>(
    alloc: Global,
    variables: &mut u32,
    tokens: &mut Tokens<'a>,
) -> Result<Vec<RawDeclaration<'a>>, ParseFault>
    ensures reads { Reads see (λ v. (declaration_views v.items, variables.new)) result (stream tokens.new) (declarations_of usual variables.old (stream tokens.old)) }
    ensures shrinks { size (stream tokens.new) ≤ size (stream tokens.old) }
{
    let mut declarations = Vec::new(alloc);
    'chain: while let Some(input) = mode(ahead(tokens)) {
        advance(tokens);
        let next = declaration(alloc, input, variables, tokens)?;
        declarations.push(next)?;
    }
    Ok(declarations)
}

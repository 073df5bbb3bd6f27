//! The statements of groups.

ghost use Rattle.st_program.specs.Plain.{plain_inner, plain_pieces};
ghost use Rattle.expression_parser.specs.ExpressionTree.{expr_view};
ghost use Rattle.st_reading.specs.Faults.{name_view};
ghost use Rattle.spl_parser.specs.ProgramTree.{statement_view, statement_views, statements, action_view, assign};
ghost use Rattle.expression_typer.specs.Answers.{Gives};
ghost use Rattle.expression_typer.specs.Scope.{scope_view};
ghost use Rattle.spl_typer.specs.Statements.{pieces_of, pieces_in, pieces_along, alone};

use crate::parts::{assigned, right_side, target, tested};
use crate::shapes::{some_statement, something};
use expression_typer::{Known, TypeFault};
use spl_parser::{RawExpr, RawKind, RawName, RawStatement};
use st_program::Inner;
use st_tokens::LimitKind;
use std::alloc::Global;

/// A piece alone.
#[tactic(auto, using(crate::proofs::Pieces::pieces))]
fn one_piece(alloc: Global, piece: Inner) -> Result<Vec<Inner>, TypeFault>
    ensures { Gives (λ v. plain_pieces v.items) result (alone (plain_inner piece)) }
{
    Ok(vec![in alloc; piece]?)
}

/// An assignment to one variable.
fn assign_piece<'a>(
    alloc: Global,
    scope: &[Known<'a>],
    name: &RawName<'a>,
    e: &RawExpr<'a>,
) -> Result<Vec<Inner>, TypeFault>
    ensures { Gives (λ v. plain_pieces v.items) result (pieces_in (scope_view scope.now) 0 (assign (name_view name.now) (expr_view e.now))) }
{
    let known = target(scope, name)?;
    let change = right_side(alloc, scope, &known, e)?;
    let changes = vec![in alloc; change]?;
    one_piece(alloc, Inner::Assign(changes))
}

/// The pieces that a statement of a group stands for.
#[cycle(pieces)]
fn pieces_of<'a>(
    alloc: Global,
    scope: &[Known<'a>],
    raw: &RawStatement<'a>,
) -> Result<Vec<Inner>, TypeFault>
    ensures { Gives (λ v. plain_pieces v.items) result (pieces_of (scope_view scope.now) (statement_view raw.now)) }
{
    pieces_in(alloc, scope, raw.place, &raw.kind)
}

#[cycle(pieces)]
#[tactic(auto, using(spl_parser::proofs::StatementRows::actions, crate::proofs::Pieces::pieces))]
fn pieces_in<'a>(
    alloc: Global,
    scope: &[Known<'a>],
    place: u64,
    raw: &RawKind<'a>,
) -> Result<Vec<Inner>, TypeFault>
    ensures { Gives (λ v. plain_pieces v.items) result (pieces_in (scope_view scope.now) place (action_view raw.now)) }
{
    match raw {
        RawKind::Skip => one_piece(alloc, Inner::Skip),
        RawKind::Assign(name, e) => assign_piece(alloc, scope, name, e),
        RawKind::AssignAll {
            targets,
            list,
            values,
        } => {
            let changes = assigned(alloc, scope, targets, *list, values)?;
            one_piece(alloc, Inner::Assign(changes))
        }
        RawKind::Await(e) => {
            let test = tested(alloc, scope, e)?;
            one_piece(alloc, Inner::Await(test))
        }
        RawKind::If { test, yes, no } => {
            let test = tested(alloc, scope, test)?;
            let yes = pieces_of(alloc, scope, yes)?;
            let no = match no {
                Some(other) => pieces_of(alloc, scope, other)?,
                None => Vec::new(alloc),
            };
            one_piece(alloc, Inner::If { test, yes, no })
        }
        RawKind::Block(items) => {
            something(some_statement(items), place)?;
            pieces_along(alloc, scope, items)
        }
        _ => Err(TypeFault::Limit(LimitKind::Statements, place)),
    }
}

/// The pieces that statements of a group stand for.
#[cycle(pieces)]
pub fn pieces_along<'a>(
    alloc: Global,
    scope: &[Known<'a>],
    items: &[RawStatement<'a>],
) -> Result<Vec<Inner>, TypeFault>
    ensures { Gives (λ v. plain_pieces v.items) result (pieces_along (scope_view scope.now) (statements (statement_views items.now))) }
{
    let mut out = Vec::new(alloc);
    for item in items {
        let mut pieces = pieces_of(alloc, scope, item)?;
        out.append(&mut pieces)?;
    }
    Ok(out)
}

//! What every text has: a statement in each body, block and group, two branches in a selection, two children in a cooperation.

ghost use Rattle.std.specs.Prelude.{◌≡◌};
ghost use Rattle.spl_parser.specs.ProgramTree.{statement_views, statements, body_views, bodies};
ghost use Rattle.expression_typer.specs.Answers.{Gives};
ghost use Rattle.spl_typer.specs.Shapes.{something, some_statement, two_statements, two_bodies};

use expression_typer::TypeFault;
use spl_parser::{RawBody, RawStatement};
use st_tokens::LimitKind;

pub fn something(there: bool, place: u64) -> Result<(), TypeFault>
    ensures { Gives (λ x. x) result (something there place) }
{
    if there {
        Ok(())
    } else {
        Err(TypeFault::Limit(LimitKind::Statements, place))
    }
}

pub fn some_statement(items: &[RawStatement]) -> bool
    ensures { result ≡ some_statement (statements (statement_views items.now)) }
{
    !items.is_empty()
}

pub fn two_statements(items: &[RawStatement]) -> bool
    ensures { result ≡ two_statements (statements (statement_views items.now)) }
{
    items.len() > 1
}

pub fn two_bodies(raws: &[RawBody]) -> bool
    ensures { result ≡ two_bodies (bodies (body_views raws.now)) }
{
    raws.len() > 1
}

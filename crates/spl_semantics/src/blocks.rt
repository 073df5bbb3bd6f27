//! The statements of blocks and components, by number.

ghost use Rattle.std.specs.Prelude.{◌≡◌, ◌≤◌, ℕ, IfSome, length};
ghost use Rattle.std.specs.Option.{option_map};
ghost use Rattle.st_program.specs.Plain.{plain_kind, plain_stmts, plain_children};
ghost use Rattle.st_program.specs.Spots as spots;

use crate::components::body_among;
use st_program::{Kind, Program, Stmt};

/// The statements of a block, or `None` of any other statement.
#[tactic(auto, using(st_program::proofs::Rows::kinds))]
fn block_items(kind: &Kind) -> Option<&[Stmt]>
    ensures { (next : ℕ) → option_map (λ s. plain_stmts s.now) result ≡ option_map (λ b. b.0) (spots.block_items (plain_kind kind.now) next) }
{
    match kind {
        Kind::Block(items) => Some(items),
        Kind::Skip | Kind::Critical | Kind::Noncritical => None,
        Kind::Assign(_) | Kind::Await(_) | Kind::Request(_) | Kind::Release(_) => None,
        Kind::If { .. } | Kind::While { .. } => None,
        Kind::Select(_) | Kind::Cooperate(_) | Kind::Group(_) => None,
    }
}

/// The statements of the block or component with this number; a program has at most 400 statements.
pub fn body(program: &Program, number: u32) -> Option<&[Stmt]>
    ensures items { option_map (λ s. plain_stmts s.now) result ≡ option_map (λ b. b.0) (spots.body (plain_children program.now.processes) number) }
    ensures short { IfSome result (λ s. length s.now ≤ 400) }
{
    if number < program.statements {
        return match program.statement(number) {
            Some(stmt) => block_items(&stmt.kind),
            None => None,
        };
    }
    match body_among(&program.processes, number - program.statements) {
        Ok(items) => Some(items),
        Err(_) => None,
    }
}

//! Statements by occurrence.

ghost use Rattle.std.specs.Prelude.{◌≡◌};
ghost use Rattle.std.specs.Option.{option_map};
ghost use Rattle.st_program.specs.Plain.{plain_stmt, plain_stmts, plain_children, plain_kind};
ghost use Rattle.st_program.specs.Search.{find_in, find_inside, find_along, find_among};

use crate::trees::{Child, Kind, Stmt};

/// The first statement with this occurrence, of this one and those in it.
#[cycle(find)]
fn find_in(stmt: &Stmt, occ: u32) -> Option<&Stmt>
    ensures { option_map (λ s. plain_stmt s.now) result ≡ find_in (plain_stmt stmt.now) occ }
{
    if stmt.occ == occ {
        return Some(stmt);
    }
    find_inside(&stmt.kind, occ)
}

#[cycle(find)]
#[tactic(auto, using(crate::proofs::Rows::kinds))]
fn find_inside(kind: &Kind, occ: u32) -> Option<&Stmt>
    ensures { option_map (λ s. plain_stmt s.now) result ≡ find_inside (plain_kind kind.now) occ }
{
    match kind {
        Kind::Skip | Kind::Critical | Kind::Noncritical => None,
        Kind::Assign(_) | Kind::Await(_) | Kind::Request(_) | Kind::Release(_) => None,
        Kind::If { test: _, yes, no } => {
            if let Some(found) = find_in(yes, occ) {
                return Some(found);
            }
            match no {
                Some(other) => find_in(other, occ),
                None => None,
            }
        }
        Kind::While { test: _, body } => find_in(body, occ),
        Kind::Block(items) => find_along(items, occ),
        Kind::Select(items) => find_along(items, occ),
        Kind::Cooperate(children) => find_among(children, occ),
        Kind::Group(_) => None,
    }
}

/// The first with this occurrence in these statements.
#[cycle(find)]
fn find_along(items: &[Stmt], occ: u32) -> Option<&Stmt>
    ensures { option_map (λ s. plain_stmt s.now) result ≡ find_along (plain_stmts items.now) occ }
{
    for item in items {
        if let Some(found) = find_in(item, occ) {
            return Some(found);
        }
    }
    None
}

/// The first with this occurrence in the bodies of these processes.
#[cycle(find)]
pub fn find_among(children: &[Child], occ: u32) -> Option<&Stmt>
    ensures { option_map (λ s. plain_stmt s.now) result ≡ find_among (plain_children children.now) occ }
{
    for child in children {
        if let Some(found) = find_along(&child.body, occ) {
            return Some(found);
        }
    }
    None
}

//! Components in a program's text: how many there are in a part of it, how many begin before a statement, and which one has
//! a number. A component is a process or a child of a cooperation; they are counted in text order.

ghost use Rattle.std.specs.Prelude.{◌≡◌, ◌<◌, ◌+◌, ◌-◌, ◌^◌, ℕ, length, min};
ghost use Rattle.st_program.specs.Plain.{plain_stmt, plain_stmts, plain_children, plain_kind};
ghost use Rattle.st_program.specs.Spots.{bodies, bodies_inside, bodies_in, bodies_of, spots, spots_within, spots_along, spots_among, spots_inside};
ghost use Rattle.spl_semantics.specs.Numbers.{begun_before, body_at, plain_body};

use st_program::{Child, Kind, Stmt};

/// How many components are in a statement. Counts that pass the largest number of 32 bits stand still there.
#[cycle(count)]
pub fn count_in(stmt: &Stmt) -> u32
    ensures { result ≡ min (length (bodies (plain_stmt stmt.now))) (2 ^ 32 - 1) }
{
    count_inside(&stmt.kind)
}

#[cycle(count)]
#[tactic(auto, using(st_program::proofs::Rows::kinds))]
fn count_inside(kind: &Kind) -> u32
    ensures { result ≡ min (length (bodies_inside (plain_kind kind.now))) (2 ^ 32 - 1) }
{
    match kind {
        Kind::Skip | Kind::Critical | Kind::Noncritical => 0,
        Kind::Assign(_) | Kind::Await(_) | Kind::Request(_) | Kind::Release(_) => 0,
        Kind::If { test: _, yes, no } => {
            match no {
                Some(other) => count_in(yes).saturating_add(count_in(other)),
                None => count_in(yes),
            }
        }
        Kind::While { test: _, body } => count_in(body),
        Kind::Block(items) => count_along(items),
        Kind::Select(items) => count_along(items),
        Kind::Cooperate(children) => count_among(children),
        Kind::Group(_) => 0,
    }
}

/// How many components are in these statements.
#[cycle(count)]
pub fn count_along(items: &[Stmt]) -> u32
    ensures { result ≡ min (length (bodies_in (plain_stmts items.now))) (2 ^ 32 - 1) }
{
    let mut count: u32 = 0;
    for item in items {
        count = count.saturating_add(count_in(item));
    }
    count
}

/// These components and those in them.
#[cycle(count)]
pub fn count_among(children: &[Child]) -> u32
    ensures { result ≡ min (length (bodies_of (plain_children children.now))) (2 ^ 32 - 1) }
{
    let mut count: u32 = 0;
    for child in children {
        count = count.saturating_add(count_along(&child.body).saturating_add(1));
    }
    count
}

/// How many components begin before the statement with this occurrence, where `before` begin before this one; or how many
/// begin up to its end, where the statement isn't in it.
#[cycle(before)]
fn before_in(stmt: &Stmt, occ: u32, before: u32) -> Result<u32, u32>
    ensures { before + length (bodies (plain_stmt stmt.now)) < 2 ^ 32 → (next : ℕ) → result ≡ begun_before (spots (plain_stmt stmt.now) next before) occ (before + length (bodies (plain_stmt stmt.now))) }
{
    if stmt.occ == occ {
        return Ok(before);
    }
    before_inside(&stmt.kind, occ, before)
}

#[cycle(before)]
#[tactic(auto, using(st_program::proofs::Rows::kinds))]
fn before_inside(kind: &Kind, occ: u32, before: u32) -> Result<u32, u32>
    ensures { before + length (bodies_inside (plain_kind kind.now)) < 2 ^ 32 → (place next : ℕ) → result ≡ begun_before (spots_within (plain_kind kind.now) place next before) occ (before + length (bodies_inside (plain_kind kind.now))) }
{
    match kind {
        Kind::Skip | Kind::Critical | Kind::Noncritical => Err(before),
        Kind::Assign(_) | Kind::Await(_) | Kind::Request(_) | Kind::Release(_) => Err(before),
        Kind::If { test: _, yes, no } => {
            match no {
                Some(other) => match before_in(yes, occ, before) {
                    Ok(found) => Ok(found),
                    Err(passed) => before_in(other, occ, passed),
                },
                None => before_in(yes, occ, before),
            }
        }
        Kind::While { test: _, body } => before_in(body, occ, before),
        Kind::Block(items) => before_along(items, occ, before),
        Kind::Select(items) => before_along(items, occ, before),
        Kind::Cooperate(children) => before_among(children, occ, before),
        Kind::Group(_) => Err(before),
    }
}

#[cycle(before)]
fn before_along(items: &[Stmt], occ: u32, before: u32) -> Result<u32, u32>
    ensures along { before + length (bodies_in (plain_stmts items.now)) < 2 ^ 32 → (next : ℕ) → result ≡ begun_before (spots_along (plain_stmts items.now) next before) occ (before + length (bodies_in (plain_stmts items.now))) }
    ensures among { before + length (bodies_in (plain_stmts items.now)) < 2 ^ 32 → (next : ℕ) → result ≡ begun_before (spots_among (plain_stmts items.now) next before) occ (before + length (bodies_in (plain_stmts items.now))) }
{
    let mut begun = before;
    for item in items {
        match before_in(item, occ, begun) {
            Ok(found) => return Ok(found),
            Err(passed) => begun = passed,
        }
    }
    Err(begun)
}

/// The same for components side by side.
#[cycle(before)]
pub fn before_among(children: &[Child], occ: u32, before: u32) -> Result<u32, u32>
    ensures { before + length (bodies_of (plain_children children.now)) < 2 ^ 32 → result ≡ begun_before (spots_inside (plain_children children.now) before) occ (before + length (bodies_of (plain_children children.now))) }
{
    let mut begun = before;
    for child in children {
        match before_along(&child.body, occ, begun.saturating_add(1)) {
            Ok(found) => return Ok(found),
            Err(passed) => begun = passed,
        }
    }
    Err(begun)
}

/// The statements of the component with this number, counted from 0 among those in the statement; or the number less how
/// many are in it, where it has none with the number.
#[cycle(body)]
fn body_in(stmt: &Stmt, number: u32) -> Result<&[Stmt], u32>
    ensures { plain_body result ≡ body_at (bodies (plain_stmt stmt.now)) number }
{
    body_inside(&stmt.kind, number)
}

#[cycle(body)]
#[tactic(auto, using(st_program::proofs::Rows::kinds))]
fn body_inside(kind: &Kind, number: u32) -> Result<&[Stmt], u32>
    ensures { plain_body result ≡ body_at (bodies_inside (plain_kind kind.now)) number }
{
    match kind {
        Kind::Skip | Kind::Critical | Kind::Noncritical => Err(number),
        Kind::Assign(_) | Kind::Await(_) | Kind::Request(_) | Kind::Release(_) => Err(number),
        Kind::If { test: _, yes, no } => {
            match no {
                Some(other) => match body_in(yes, number) {
                    Ok(found) => Ok(found),
                    Err(left) => body_in(other, left),
                },
                None => body_in(yes, number),
            }
        }
        Kind::While { test: _, body } => body_in(body, number),
        Kind::Block(items) => body_along(items, number),
        Kind::Select(items) => body_along(items, number),
        Kind::Cooperate(children) => body_among(children, number),
        Kind::Group(_) => Err(number),
    }
}

#[cycle(body)]
fn body_along(items: &[Stmt], number: u32) -> Result<&[Stmt], u32>
    ensures { plain_body result ≡ body_at (bodies_in (plain_stmts items.now)) number }
{
    let mut number = number;
    for item in items {
        match body_in(item, number) {
            Ok(found) => return Ok(found),
            Err(left) => number = left,
        }
    }
    Err(number)
}

/// The same for components side by side.
#[cycle(body)]
pub fn body_among(children: &[Child], number: u32) -> Result<&[Stmt], u32>
    ensures { plain_body result ≡ body_at (bodies_of (plain_children children.now)) number }
{
    let mut number = number;
    for child in children {
        if number == 0 {
            return Ok(&child.body);
        }
        match body_along(&child.body, number - 1) {
            Ok(found) => return Ok(found),
            Err(left) => number = left,
        }
    }
    Err(number)
}

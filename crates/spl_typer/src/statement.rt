//! Statements.

ghost use Rattle.expression_typer.specs.declared.fault.TypeFault.{TypeFault};
ghost use Rattle.std.specs.Prelude.{◌≡◌, ◌++◌, [], ◌∷◌, true, false, Some, None, Ok, ℕ, Result, map, is_some, IfOk};
ghost use Rattle.st_form.specs.Formula.{truth_value};
ghost use Rattle.st_form.specs.Plain.{plain};
ghost use Rattle.st_program.specs.Plain.{plain_stmt, plain_kind, plain_stmts, plain_children, plain_child, plain_pieces};
ghost use Rattle.st_program.specs.Tree as tree;
ghost use Rattle.spl_parser.specs.ProgramTree.{statement_view, statement_views, statements, action_view, body_view, body_views, bodies, label_view, option_branch, assign, assign_all, await, request, release, group};
ghost use Rattle.expression_parser.specs.ExpressionTree.{expr_view};
ghost use Rattle.st_reading.specs.Faults.{name_view};
ghost use Rattle.expression_typer.specs.Answers.{Gives};
ghost use Rattle.expression_typer.specs.Scope.{scope_view};
ghost use Rattle.spl_typer.specs.Walk.{state, State, Makes, Made, Moves, give};
ghost use Rattle.spl_typer.specs.Statements.{pieces_of, pieces_in, pieces_inside, pieces_along, other_pieces};
ghost use Rattle.spl_typer.specs.Shapes.{something, some_statement, two_statements, two_bodies};
ghost use Rattle.spl_typer.specs.Walking.{fresh, beneath, location, labelled, no_loop, with_else, walked, acting, branched, along, inside, bodied};

use crate::composing::grouped;
use crate::inner::pieces_along;
use crate::parts::{assigned, counter, right_side, target, tested};
use crate::shapes::{some_statement, something, two_bodies, two_statements};
use crate::walk::{Mark, Walk};
use expression_typer::{Known, TypeFault, truth};
use spl_parser::{RawBody, RawExpr, RawKind, RawName, RawStatement};
use st_form::Form;
use st_program::{Child, Kind, Stmt};
use std::alloc::{AllocError, Global};

/// Where a statement stands: the location that it takes over, and whether a branch of a selection begins with it.
#[derive(Clone, Copy, Debug)]
pub struct Here {
    pub own: Option<u32>,
    pub head: bool,
}

fn fresh() -> Here
    ensures { result ≡ fresh }
{
    Here {
        own: None,
        head: false,
    }
}

fn beneath(loc: u32, head: bool) -> Here
    ensures { result ≡ beneath loc head }
{
    Here {
        own: Some(loc),
        head,
    }
}

/// The location of a statement: what it takes over, or a new one.
fn location<'a>(walk: &mut Walk<'a>, own: Option<u32>, place: u64) -> Result<u32, TypeFault>
    ensures { Makes (λ l. l) result (state walk.new) (location own place (state walk.old)) }
{
    match own {
        Some(loc) => Ok(loc),
        None => walk.location(place),
    }
}

fn labelled<'a>(
    walk: &mut Walk<'a>,
    label: &Option<RawName<'a>>,
    loc: u32,
    occ: Option<u32>,
) -> Result<(), TypeFault>
    ensures { Moves result (state walk.new) (labelled (label_view label.now) loc occ (state walk.old)) }
{
    match label {
        Some(name) => walk.declare(name, Mark::Label(loc, occ)),
        None => Ok(()),
    }
}

fn no_loop(head: bool, place: u64) -> Result<(), TypeFault>
    ensures { Gives (λ x. x) result (no_loop head place) }
{
    if head {
        Err(TypeFault::SelectHead(place))
    } else {
        Ok(())
    }
}

/// A statement in a box. Who makes a tree holds its parts so, since each of its ends drops what it holds.
fn in_box(alloc: Global, stmt: Stmt) -> Result<Box<Stmt>, AllocError>
    ensures { IfOk result (λ b. b.value ≡ stmt) }
{
    Ok(Box::new(alloc, stmt)?)
}

/// An assignment to one variable.
#[tactic(auto, using(st_program::proofs::Rows::kinds))]
fn assign_one<'a>(
    alloc: Global,
    scope: &[Known<'a>],
    name: &RawName<'a>,
    e: &RawExpr<'a>,
) -> Result<Kind, TypeFault>
    ensures { (st : State) → Makes plain_kind result st (acting (scope_view scope.now) 0 false 0 (assign (name_view name.now) (expr_view e.now)) st) }
{
    let known = target(scope, name)?;
    let change = right_side(alloc, scope, &known, e)?;
    Ok(Kind::Assign(vec![in alloc; change]?))
}

/// The pieces of a group, and its weight.
#[tactic(auto, using(st_program::proofs::Rows::kinds))]
fn group<'a>(
    alloc: Global,
    scope: &[Known<'a>],
    walk: &mut Walk<'a>,
    place: u64,
    items: &[RawStatement<'a>],
) -> Result<Kind, TypeFault>
    ensures { Makes plain_kind result (state walk.new) (acting (scope_view scope.now) 0 false place (group (statements (statement_views items.now))) (state walk.old)) }
{
    something(some_statement(items), place)?;
    let pieces = pieces_along(alloc, scope, items)?;
    let weight = grouped(alloc, place, &pieces, walk.weight)?;
    walk.weigh(weight);
    Ok(Kind::Group(pieces))
}

/// An assignment to several variables.
#[tactic(auto, using(st_program::proofs::Rows::kinds))]
fn assign_all<'a>(
    alloc: Global,
    scope: &[Known<'a>],
    names: &[RawName<'a>],
    list: u64,
    values: &[RawExpr<'a>],
) -> Result<Kind, TypeFault>
    ensures { (st : State) → Makes plain_kind result st (acting (scope_view scope.now) 0 false 0 (assign_all (map name_view names.now) list (map expr_view values.now)) st) }
{
    Ok(Kind::Assign(assigned(alloc, scope, names, list, values)?))
}

/// A statement that waits.
#[tactic(auto, using(st_program::proofs::Rows::kinds))]
fn awaiting<'a>(alloc: Global, scope: &[Known<'a>], e: &RawExpr<'a>) -> Result<Kind, TypeFault>
    ensures { (st : State) → Makes plain_kind result st (acting (scope_view scope.now) 0 false 0 (await (expr_view e.now)) st) }
{
    Ok(Kind::Await(tested(alloc, scope, e)?))
}

/// A request.
#[tactic(auto, using(st_program::proofs::Rows::kinds))]
fn requesting<'a>(scope: &[Known<'a>], name: &RawName<'a>) -> Result<Kind, TypeFault>
    ensures { (st : State) → Makes plain_kind result st (acting (scope_view scope.now) 0 false 0 (request (name_view name.now)) st) }
{
    Ok(Kind::Request(counter(scope, name)?))
}

/// A release.
#[tactic(auto, using(st_program::proofs::Rows::kinds))]
fn releasing<'a>(scope: &[Known<'a>], name: &RawName<'a>) -> Result<Kind, TypeFault>
    ensures { (st : State) → Makes plain_kind result st (acting (scope_view scope.now) 0 false 0 (release (name_view name.now)) st) }
{
    Ok(Kind::Release(counter(scope, name)?))
}

/// A conditional with one branch.
fn if_then(alloc: Global, test: Form, yes: Stmt) -> Result<Kind, TypeFault>
    ensures { (st : State) → Makes plain_kind result st (give (tree.if_then (plain test) (plain_stmt yes)) st) }
{
    let yes = in_box(alloc, yes)?;
    Ok(Kind::If {
        test,
        yes,
        no: None,
    })
}

/// A loop.
fn while_do(alloc: Global, test: Form, body: Stmt) -> Result<Kind, TypeFault>
    ensures { (st : State) → Makes plain_kind result st (give (tree.while_do (plain test) (plain_stmt body)) st) }
{
    let body = in_box(alloc, body)?;
    Ok(Kind::While { test, body })
}

/// A conditional with two branches.
fn both(alloc: Global, test: Form, yes: Stmt, no: Stmt) -> Result<Kind, TypeFault>
    ensures { (st : State) → Makes plain_kind result st (give (tree.if_else (plain test) (plain_stmt yes) (plain_stmt no)) st) }
{
    let yes = in_box(alloc, yes)?;
    let no = Some(in_box(alloc, no)?);
    Ok(Kind::If { test, yes, no })
}

/// A conditional whose second branch was typed.
fn if_else(
    alloc: Global,
    test: Form,
    yes: Stmt,
    no: Result<Stmt, TypeFault>,
) -> Result<Kind, TypeFault>
    ensures { (r : Result (Made tree.Statement) TypeFault) (st : State) → Makes plain_stmt no st r
        → Makes plain_kind result st (with_else (plain test) (plain_stmt yes) r) }
{
    match no {
        Ok(no) => both(alloc, test, yes, no),
        Err(fault) => Err(fault),
    }
}

/// A statement, or the first rule that is broken in it.
#[cycle(walked)]
fn statement<'a>(
    alloc: Global,
    scope: &[Known<'a>],
    walk: &mut Walk<'a>,
    here: Here,
    raw: &RawStatement<'a>,
) -> Result<Stmt, TypeFault>
    ensures { Makes plain_stmt result (state walk.new) (walked (scope_view scope.now) here (statement_view raw.now) (state walk.old)) }
{
    let loc = location(walk, here.own, raw.place)?;
    let occ = walk.occurrence(raw.place)?;
    labelled(walk, &raw.label, loc, Some(occ))?;
    let kind = acting(alloc, scope, walk, loc, here.head, raw.place, &raw.kind)?;
    Ok(Stmt { occ, loc, kind })
}

#[cycle(walked)]
#[tactic(auto, using(spl_parser::proofs::StatementRows::actions, st_program::proofs::Rows::kinds))]
fn acting<'a>(
    alloc: Global,
    scope: &[Known<'a>],
    walk: &mut Walk<'a>,
    loc: u32,
    head: bool,
    place: u64,
    raw: &RawKind<'a>,
) -> Result<Kind, TypeFault>
    ensures { Makes plain_kind result (state walk.new) (acting (scope_view scope.now) loc head place (action_view raw.now) (state walk.old)) }
{
    match raw {
        RawKind::Skip => Ok(Kind::Skip),
        RawKind::Critical => Ok(Kind::Critical),
        RawKind::Noncritical => Ok(Kind::Noncritical),
        RawKind::Assign(name, e) => assign_one(alloc, scope, name, e),
        RawKind::AssignAll {
            targets,
            list,
            values,
        } => assign_all(alloc, scope, targets, *list, values),
        RawKind::Await(e) => awaiting(alloc, scope, e),
        RawKind::Request(name) => requesting(scope, name),
        RawKind::Release(name) => releasing(scope, name),
        RawKind::If {
            test,
            yes,
            no: None,
        } => {
            let test = tested(alloc, scope, test)?;
            let yes = statement(alloc, scope, walk, fresh(), yes)?;
            if_then(alloc, test, yes)
        }
        RawKind::If {
            test,
            yes,
            no: Some(no),
        } => {
            let test = tested(alloc, scope, test)?;
            let yes = statement(alloc, scope, walk, fresh(), yes)?;
            let no = statement(alloc, scope, walk, fresh(), no);
            if_else(alloc, test, yes, no)
        }
        RawKind::While { test, body } => {
            no_loop(head, place)?;
            let test = tested(alloc, scope, test)?;
            let body = statement(alloc, scope, walk, fresh(), body)?;
            while_do(alloc, test, body)
        }
        RawKind::Loop(body) => {
            no_loop(head, place)?;
            let body = statement(alloc, scope, walk, fresh(), body)?;
            while_do(alloc, truth(true), body)
        }
        RawKind::Block(items) => {
            something(some_statement(items), place)?;
            let items = along(alloc, scope, walk, beneath(loc, head), fresh(), items)?;
            Ok(Kind::Block(items))
        }
        RawKind::Select(items) => {
            something(two_statements(items), place)?;
            let branch = beneath(loc, true);
            let items = along(alloc, scope, walk, branch, branch, items)?;
            Ok(Kind::Select(items))
        }
        RawKind::Cooperate(bodies) => {
            something(two_bodies(bodies), place)?;
            Ok(Kind::Cooperate(inside(alloc, scope, walk, bodies)?))
        }
        RawKind::Group(items) => { group(alloc, scope, walk, place, items) }
    }
}

/// Statements, of which the first stands here, and the others there.
#[cycle(walked)]
fn along<'a>(
    alloc: Global,
    scope: &[Known<'a>],
    walk: &mut Walk<'a>,
    here: Here,
    there: Here,
    items: &[RawStatement<'a>],
) -> Result<Vec<Stmt>, TypeFault>
    ensures { Makes (λ v. plain_stmts v.items) result (state walk.new)
        (along (scope_view scope.now) here there (statements (statement_views items.now)) (state walk.old)) }
{
    let mut out = Vec::new(alloc);
    let mut place = here;
    for item in items {
        let stmt = statement(alloc, scope, walk, place, item)?;
        out.push(stmt)?;
        place = there;
    }
    Ok(out)
}

/// The children of a cooperation.
#[cycle(walked)]
fn inside<'a>(
    alloc: Global,
    scope: &[Known<'a>],
    walk: &mut Walk<'a>,
    raws: &[RawBody<'a>],
) -> Result<Vec<Child>, TypeFault>
    ensures { Makes (λ v. plain_children v.items) result (state walk.new) (inside (scope_view scope.now) (bodies (body_views raws.now)) (state walk.old)) }
{
    let mut out = Vec::new(alloc);
    for raw in raws {
        let child = body(alloc, scope, walk, raw)?;
        out.push(child)?;
    }
    Ok(out)
}

/// A process's or child's body.
#[cycle(walked)]
#[tactic(auto, using(spl_parser::proofs::StatementRows::whole_bodies, st_program::proofs::Rows::children))]
pub fn body<'a>(
    alloc: Global,
    scope: &[Known<'a>],
    walk: &mut Walk<'a>,
    raw: &RawBody<'a>,
) -> Result<Child, TypeFault>
    ensures { Makes plain_child result (state walk.new) (bodied (scope_view scope.now) (body_view raw.now) (state walk.old)) }
{
    something(some_statement(&raw.statements), 0)?;
    let statements = along(alloc, scope, walk, fresh(), fresh(), &raw.statements)?;
    let end = walk.location(0)?;
    labelled(walk, &raw.end, end, None)?;
    Ok(Child {
        body: statements,
        end,
    })
}

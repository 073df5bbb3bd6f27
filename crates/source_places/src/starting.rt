//! The statements of a program in the order in which the typer numbers them: each before those inside it, and both in text
//! order. What stands inside a group has no number.

ghost use Rattle.std.specs.Prelude.{◌≡◌, ◌++◌, map, OnOk, IfOk};
ghost use Rattle.spl_parser.specs.ProgramTree.{statement_view, statement_views, statements, action_view, body_view, body_views, bodies, process_views};
ghost use Rattle.source_places.specs.Starts.{start_view, starts_in, starts_inside, starts_along, starts_beside, starts_of, first_of, program_starts};

use spl_parser::{RawBody, RawKind, RawProcess, RawStatement};
use st_memory::Memory;
use st_reading::RawName;
use std::alloc::Global;

/// Where a statement begins: its label, and the first token behind it.
#[derive(Clone, Copy, Debug)]
pub struct Start<'a> {
    pub label: Option<RawName<'a>>,
    pub place: u64,
    /// The number of its process, from 0.
    pub process: usize,
}

impl<'a> Start<'a> {
    /// The place of the first token.
    pub fn first(&self) -> u64
        ensures { result ≡ first_of (start_view self.now) }
    {
        match self.label {
            Some(name) => name.place,
            None => self.place,
        }
    }
}

#[cycle(stated)]
fn push_statement<'a>(
    raw: &RawStatement<'a>,
    process: usize,
    out: &mut Vec<Start<'a>>,
) -> Result<(), Memory>
    ensures { OnOk result (map start_view out.new.items ≡ map start_view out.old.items ++ starts_in (statement_view raw.now)) }
{
    out.push(Start {
        label: raw.label,
        place: raw.place,
        process,
    })?;
    push_inside(&raw.kind, process, out)
}

#[cycle(stated)]
#[tactic(auto, using(spl_parser::proofs::StatementRows::actions))]
fn push_inside<'a>(
    raw: &RawKind<'a>,
    process: usize,
    out: &mut Vec<Start<'a>>,
) -> Result<(), Memory>
    ensures { OnOk result (map start_view out.new.items ≡ map start_view out.old.items ++ starts_inside (action_view raw.now)) }
{
    match raw {
        RawKind::Skip => Ok(()),
        RawKind::Critical => Ok(()),
        RawKind::Noncritical => Ok(()),
        RawKind::Assign(_, _) => Ok(()),
        RawKind::AssignAll {
            targets: _,
            list: _,
            values: _,
        } => Ok(()),
        RawKind::Await(_) => Ok(()),
        RawKind::Request(_) => Ok(()),
        RawKind::Release(_) => Ok(()),
        RawKind::If {
            test: _,
            yes,
            no: None,
        } => push_statement(yes, process, out),
        RawKind::If {
            test: _,
            yes,
            no: Some(no),
        } => {
            push_statement(yes, process, out)?;
            push_statement(no, process, out)
        }
        RawKind::While { test: _, body } => push_statement(body, process, out),
        RawKind::Loop(body) => push_statement(body, process, out),
        RawKind::Block(items) => push_statements(items, process, out),
        RawKind::Select(items) => push_statements(items, process, out),
        RawKind::Cooperate(bodies) => push_bodies(bodies, process, out),
        RawKind::Group(_) => Ok(()),
    }
}

#[cycle(stated)]
fn push_statements<'a>(
    items: &[RawStatement<'a>],
    process: usize,
    out: &mut Vec<Start<'a>>,
) -> Result<(), Memory>
    ensures { OnOk result (map start_view out.new.items ≡ map start_view out.old.items ++ starts_along (statements (statement_views items.now))) }
{
    for item in items {
        push_statement(item, process, out)?;
    }
    Ok(())
}

#[cycle(stated)]
#[tactic(auto, using(spl_parser::proofs::StatementRows::whole_bodies))]
fn push_body<'a>(raw: &RawBody<'a>, process: usize, out: &mut Vec<Start<'a>>) -> Result<(), Memory>
    ensures { OnOk result (map start_view out.new.items ≡ map start_view out.old.items ++ starts_of (body_view raw.now)) }
{
    push_statements(&raw.statements, process, out)
}

#[cycle(stated)]
fn push_bodies<'a>(
    items: &[RawBody<'a>],
    process: usize,
    out: &mut Vec<Start<'a>>,
) -> Result<(), Memory>
    ensures { OnOk result (map start_view out.new.items ≡ map start_view out.old.items ++ starts_beside (bodies (body_views items.now))) }
{
    for item in items {
        push_body(item, process, out)?;
    }
    Ok(())
}

/// The begins of all statements of a program.
pub fn starts<'a>(alloc: Global, processes: &[RawProcess<'a>]) -> Result<Vec<Start<'a>>, Memory>
    ensures { IfOk result (λ v. map start_view v.items ≡ program_starts (process_views processes.now)) }
{
    let mut out = Vec::new(alloc);
    for (process, raw) in processes.iter().enumerate() {
        push_body(&raw.body, process, &mut out)?;
    }
    Ok(out)
}

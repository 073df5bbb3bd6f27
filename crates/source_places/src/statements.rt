//! Where the statements of a program stand.

ghost use Rattle.std.specs.Prelude.{◌≡◌, ◌≤◌, length, map, IfOk};
ghost use Rattle.spl_parser.specs.ProgramTree.{process_views};
ghost use Rattle.source_places.specs.Starts.{start_view, first_of, program_starts};
ghost use Rattle.source_places.specs.Places.{first_place};

use crate::cutting::{End, cut, len_until, mark_of, span_of};
use crate::span::Span;
use crate::starting::{Start, starts};
use crate::tokens::tokens_of;
use spl_parser::RawProgram;
use st_memory::Memory;
use st_reading::{Mark, RawName};
use st_tokens::Token;
use std::alloc::Global;

/// Where a statement stands.
#[derive(Clone, Copy, Debug)]
pub struct StatementPlace {
    /// From its label, or else its first token, to its last.
    pub whole: Span,
    /// As far as it is said in a line: of a conditional or loop up to its test, and of what holds statements its first token.
    pub head: Span,
    pub label: Option<Span>,
    /// The number of its process, from 0.
    pub process: usize,
}

/// The stretch of a name.
fn name_span(name: RawName) -> Span {
    Span {
        from: name.place,
        to: name.place.saturating_add(name.text.len() as u64),
    }
}

/// How many tokens a statement's head has, of those from the first behind its label on.
fn head_len(tokens: &[Token]) -> usize
    ensures { result ≤ length tokens.now }
{
    match tokens {
        [] => 0,
        [first, rest @ ..] => match mark_of(first) {
            Some(Mark::OpenBlock | Mark::Select | Mark::Cobegin) => 1,
            Some(Mark::If | Mark::While | Mark::Loop) => 1 + len_until(rest, End::Test),
            _ => len_until(tokens, End::Statement),
        },
    }
}

/// Where a statement stands that begins so, in a text with these tokens.
fn statement_place(tokens: &[Token], start: &Start) -> StatementPlace
    ensures { first_place result ≡ first_of (start_view start.now) }
{
    let from = tokens.partition_point(|token: &Token| -> bool { token.start < start.place });
    let rest = tokens.split_at(from).1;
    let first = Span {
        from: start.first(),
        to: start.place,
    };
    StatementPlace {
        whole: joined(first, cut(rest, End::Statement).0),
        head: joined(first, rest.split_at(head_len(rest)).0),
        label: start.label.map(name_span),
        process: start.process,
    }
}

/// From the begin of a stretch to the last of the tokens.
fn joined(first: Span, tokens: &[Token]) -> Span
    ensures { result.from ≡ first.from }
{
    match span_of(tokens) {
        Some(rest) => first.to(rest),
        None => first,
    }
}

/// Where each of these statements stands.
fn places(alloc: Global, tokens: &[Token], starts: &[Start]) -> Result<Vec<StatementPlace>, Memory>
    ensures { IfOk result (λ v. map first_place v.items ≡ map first_of (map start_view starts.now)) }
{
    let mut out = Vec::new(alloc);
    for start in starts {
        out.push(statement_place(tokens, start))?;
    }
    Ok(out)
}

/// Where each statement of a program stands, by its number in text order. The text is that which was read.
pub fn statement_places(
    alloc: Global,
    text: &[u8],
    program: &RawProgram,
) -> Result<Vec<StatementPlace>, Memory>
    ensures { IfOk result (λ v. map first_place v.items ≡ map first_of (program_starts (process_views program.now.processes.items))) }
{
    let tokens = tokens_of(alloc, text)?;
    let starts = starts(alloc, &program.processes)?;
    places(alloc, &tokens, &starts)
}

//! Processes and whole programs.

ghost use Rattle.std.specs.Prelude.{◌≡◌, ◌+◌, ◌≤◌, length};
ghost use Rattle.st_tokens.specs.Stream.{stream, text_stream};
ghost use Rattle.st_reading.specs.declared.mark.Mark.TheVariants as marks;
ghost use Rattle.st_reading.specs.Reading.{Reads, size, linked};
ghost use Rattle.st_reading.specs.Faults.{see, name_view};
ghost use Rattle.spl_parser.specs.ProgramTree.{process_view, process_views, program_view};
ghost use Rattle.spl_parser.specs.Programs.{totals, process_name, process_of, processes_of, program_of, usual};
ghost use Rattle.spl_parser.specs.Parsing.{Parses, parsed};
ghost use Rattle.spl_parser.specs.Theorems.{IsReading};

use crate::bodies::body;
use crate::declaration::declarations;
use crate::limits::{PROCESSES, ROUND};
use crate::raw::{RawProcess, RawProgram};
use st_reading::{
    Mark, ParseFault, RawName, advance, ahead, at_end, expect, is, is_name, name_ahead, place_of,
    refusal,
};
use st_tokens::{LimitKind, Tokens};
use std::alloc::Global;

/// The name of a process, where that many processes were read before.
#[tactic(auto, unfolding(crate::specs::Programs::process_name))]
fn process_name<'a>(number: usize, tokens: &mut Tokens<'a>) -> Result<RawName<'a>, ParseFault>
    ensures reads { Reads see name_view result (stream tokens.new) (process_name usual number (stream tokens.old)) }
    ensures shrinks { size (stream tokens.new) ≤ size (stream tokens.old) }
{
    if !is_name(ahead(tokens)) {
        return Err(refusal(tokens));
    }
    if number >= PROCESSES {
        return Err(ParseFault::Limit(LimitKind::Processes, place_of(tokens)));
    }
    let name = name_ahead(tokens);
    advance(tokens);
    Ok(name)
}

/// A process, where that many processes were read before.
#[tactic(auto, unfolding(crate::specs::Programs::process_of))]
fn process<'a>(
    alloc: Global,
    number: usize,
    variables: &mut u32,
    statements: &mut u32,
    tokens: &mut Tokens<'a>,
) -> Result<RawProcess<'a>, ParseFault>
    ensures reads { Reads see (λ p. (process_view p, totals (number + 1) variables.new statements.new)) result (stream tokens.new) (process_of usual (totals number variables.old statements.old) (stream tokens.old)) }
    ensures shrinks { size (stream tokens.new) ≤ size (stream tokens.old) }
{
    let name = process_name(number, tokens)?;
    expect(tokens, Mark::Colons)?;
    expect(tokens, Mark::OpenBlock)?;
    let declarations = declarations(alloc, variables, tokens)?;
    let body = body(alloc, ROUND + 1, statements, tokens)?;
    Ok(RawProcess {
        name,
        declarations,
        body,
    })
}

/// Further processes behind `||`.
fn further_processes<'a>(
    alloc: Global,
    mut processes: Vec<RawProcess<'a>>,
    variables: &mut u32,
    statements: &mut u32,
    tokens: &mut Tokens<'a>,
) -> Result<Vec<RawProcess<'a>>, ParseFault>
    ensures reads { Reads see (λ v. (process_views v.items, totals (length v.items) variables.new statements.new)) result (stream tokens.new) (linked marks.Bars (process_of usual) (process_views processes.entry.items, totals (length processes.entry.items) variables.old statements.old) (stream tokens.old)) }
    ensures shrinks { size (stream tokens.new) ≤ size (stream tokens.old) }
{
    'chain: while is(ahead(tokens), Mark::Bars) {
        advance(tokens);
        let next = process(alloc, processes.len(), variables, statements, tokens)?;
        processes.push(next)?;
    }
    Ok(processes)
}

/// Processes with `||` between them.
#[tactic(auto, unfolding(crate::specs::Programs::processes_of))]
fn processes<'a>(
    alloc: Global,
    variables: &mut u32,
    statements: &mut u32,
    tokens: &mut Tokens<'a>,
) -> Result<Vec<RawProcess<'a>>, ParseFault>
    ensures reads { Reads see (λ v. (process_views v.items, totals (length v.items) variables.new statements.new)) result (stream tokens.new) (processes_of usual (totals 0 variables.old statements.old) (stream tokens.old)) }
    ensures shrinks { size (stream tokens.new) ≤ size (stream tokens.old) }
{
    let first = process(alloc, 0, variables, statements, tokens)?;
    let mut processes = Vec::new(alloc);
    processes.push(first)?;
    further_processes(alloc, processes, variables, statements, tokens)
}

/// Reads a whole text.
#[tactic(auto, unfolding(crate::specs::Programs::program_of, crate::specs::Programs::spelled_of))]
fn whole_program<'a>(alloc: Global, text: &'a [u8]) -> Result<RawProgram<'a>, ParseFault>
    ensures reads { Parses program_view result (parsed text.now) }
{
    let mut tokens = Tokens::new(text);
    let mut variables = 0;
    let mut statements = 0;
    let declarations = declarations(alloc, &mut variables, &mut tokens)?;
    let processes = processes(alloc, &mut variables, &mut statements, &mut tokens)?;
    at_end(&mut tokens)?;
    Ok(RawProgram {
        declarations,
        processes,
    })
}

/// Reads a program: exactly the one that the text spells within the limits. A text that spells none is refused at its
/// first fault in the order of the text; at one place a token fault comes before `Syntax`, and that before `Limit`.
#[tactic(auto, using(crate::proofs::ProgramTheorems::is_reading))]
pub fn parse_program<'a>(alloc: Global, text: &'a [u8]) -> Result<RawProgram<'a>, ParseFault>
    ensures reads { Parses program_view result (parsed text.now) }
    ensures spells { IsReading program_view result text.now }
{
    whole_program(alloc, text)
}

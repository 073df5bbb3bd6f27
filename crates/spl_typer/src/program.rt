//! Declarations, processes and programs.

ghost use Rattle.std.specs.Prelude.{map};
ghost use Rattle.st_reading.specs.Faults.{name_view};
ghost use Rattle.spl_parser.specs.ProgramTree.{declaration_view, declaration_views, process_view, process_views, program_view};
ghost use Rattle.expression_typer.specs.Answers.{Gives};
ghost use Rattle.st_form.specs.Formula.{every, formulas};
ghost use Rattle.st_form.specs.Plain.{plain};
ghost use Rattle.st_program.specs.Plain.{plain_child};
ghost use Rattle.st_program.specs.Programs.{IsProgram, View};
ghost use Rattle.spl_typer.specs.Walk.{entries};
ghost use Rattle.spl_typer.specs.Programs.{heading, named_in, names_in, declaration_in, declarations_in, process_in, processes_in, heading_of, nothing_met, Leads, names_of, side_by_side, typing, typed_view, Apart};

use crate::names::{labels_of, variables_of};
use crate::parts::tested;
use crate::statement::body;
use crate::walk::{Entry, Mark, Walk};
use expression_typer::{Known, TypeFault};
use spl_parser::{RawDeclaration, RawName, RawProcess, RawProgram};
use st_form::{Form, Variable};
use st_program::{Child, NameTable, Program};
use st_tokens::LimitKind;
use std::alloc::Global;

/// What was met so far.
#[derive(Drop)]
pub struct Head<'a> {
    pub scope: Vec<Known<'a>>,
    pub walk: Walk<'a>,
    pub variables: Vec<Variable>,
    pub initial: Vec<Form>,
    pub processes: Vec<Child>,
}

fn declare<'a>(
    head: &mut Head<'a>,
    input: bool,
    truth: bool,
    name: &RawName<'a>,
) -> Result<(), TypeFault>
    ensures { Leads result (heading head.new) (named_in input truth (name_view name.now) (heading head.old)) }
{
    head.walk.declare(name, Mark::Variable(truth))?;
    let var = head.variables.as_slice().len();
    if var >= 64 {
        return Err(TypeFault::Limit(LimitKind::Variables, name.place));
    }
    head.scope.push(Known {
        name: name.text,
        var: var as u32,
        truth,
        input,
    })?;
    head.variables.push(Variable { input, truth })?;
    Ok(())
}

fn declare_all<'a>(
    head: &mut Head<'a>,
    input: bool,
    truth: bool,
    names: &[RawName<'a>],
) -> Result<(), TypeFault>
    ensures { Leads result (heading head.new) (names_in input truth (map name_view names.now) (heading head.old)) }
{
    for name in names {
        declare(head, input, truth, name)?;
    }
    Ok(())
}

fn declaration<'a>(
    alloc: Global,
    head: &mut Head<'a>,
    raw: &RawDeclaration<'a>,
) -> Result<(), TypeFault>
    ensures { Leads result (heading head.new) (declaration_in (declaration_view raw.now) (heading head.old)) }
{
    declare_all(head, raw.input, raw.truth, &raw.names)?;
    match &raw.initial {
        Some(e) => {
            let f = tested(alloc, &head.scope, e)?;
            head.initial.push(f)?;
            Ok(())
        }
        None => Ok(()),
    }
}

fn declarations<'a>(
    alloc: Global,
    head: &mut Head<'a>,
    raws: &[RawDeclaration<'a>],
) -> Result<(), TypeFault>
    ensures { Leads result (heading head.new) (declarations_in (declaration_views raws.now) (heading head.old)) }
{
    for raw in raws {
        declaration(alloc, head, raw)?;
    }
    Ok(())
}

fn process<'a>(alloc: Global, head: &mut Head<'a>, raw: &RawProcess<'a>) -> Result<(), TypeFault>
    ensures { Leads result (heading head.new) (process_in (process_view raw.now) (heading head.old)) }
{
    let shared = head.scope.as_slice().len();
    head.walk.declare(&raw.name, Mark::Process)?;
    declarations(alloc, head, &raw.declarations)?;
    let child = body(alloc, &head.scope, &mut head.walk, &raw.body)?;
    head.processes.push(child)?;
    head.scope.truncate(shared);
    Ok(())
}

fn processes<'a>(
    alloc: Global,
    head: &mut Head<'a>,
    raws: &[RawProcess<'a>],
) -> Result<(), TypeFault>
    ensures { Leads result (heading head.new) (processes_in (process_views raws.now) (heading head.old)) }
{
    for raw in raws {
        process(alloc, head, raw)?;
    }
    Ok(())
}

/// What a whole program amounts to, or the first rule that is broken.
fn typed_program<'a>(alloc: Global, raw: &RawProgram<'a>) -> Result<Head<'a>, TypeFault>
    ensures { Gives heading result (heading_of (program_view raw.now)) }
{
    if raw.processes.is_empty() {
        return Err(TypeFault::Limit(LimitKind::Processes, 0));
    }
    if raw.processes.as_slice().len() > 16 {
        return Err(TypeFault::Limit(LimitKind::Processes, 0));
    }
    let mut head = Head {
        scope: Vec::new(alloc),
        walk: Walk {
            names: Vec::new(alloc),
            occ: 0,
            loc: 0,
            weight: 0,
        },
        variables: Vec::new(alloc),
        initial: Vec::new(alloc),
        processes: Vec::new(alloc),
    };
    declarations(alloc, &mut head, &raw.declarations)?;
    processes(alloc, &mut head, &raw.processes)?;
    Ok(head)
}

/// The names of a program.
fn table<'a>(alloc: Global, names: &[Entry<'a>]) -> Result<NameTable, TypeFault>
    requires { Apart (entries names.now) }
    ensures { Gives (λ t. t) result (names_of (entries names.now)) }
{
    let variables = variables_of(alloc, names)?;
    if variables.as_slice().len() > 64 {
        return Err(TypeFault::Limit(LimitKind::Variables, 0));
    }
    let labels = labels_of(alloc, names)?;
    Ok(NameTable::new(alloc, variables, labels)?)
}

/// The program that a raw program stands for, with its names, or the lowest rule that is broken at the first place, by
/// the typing rules of the Simple Programming Language (Manna and Pnueli, Temporal Verification of Reactive Systems:
/// Safety, 1995, section 0.2, with locations and control as in section 0.4).
pub fn type_program<'a>(
    alloc: Global,
    raw: &RawProgram<'a>,
) -> Result<(Program, NameTable), TypeFault>
    ensures { Gives typed_view result (typing (program_view raw.now)) }
{
    let head = typed_program(alloc, raw)?;
    let names = table(alloc, &head.walk.names)?;
    let program = Program {
        variables: head.variables,
        initial: Form::And(head.initial),
        processes: head.processes,
        locations: head.walk.loc,
        statements: head.walk.occ,
    };
    Ok((program, names))
}

//! All stages.

ghost use Rattle.std.specs.Prelude.{◌≡◌, ◌≤◌, ◌<◌, ◌+◌, ◌^◌, [], map, length, IfOk, IsTrue, Some, vec_len, pos};
ghost use Rattle.st_linear.specs.Linear.{are_within};
ghost use Rattle.elimination_laws.specs.Stages.{tracked, stages, ending};
ghost use Rattle.elimination_laws.specs.Laws.{AreProper, HaveNoRefutation};
ghost use Rattle.farkas_leaf.specs.Lines.{Closes, HaveNoSolution};
ghost use Rattle.row_elimination.specs.Plain.{tracked_row, rows};
ghost use Rattle.row_elimination.specs.Places.{GivesRows, sift_from};
ghost use Rattle.row_elimination.specs.Runs.{first_row, AllWithin, GivesUses, IsStop, uses_plain};
ghost use Rattle.elimination_laws.specs.Points.{point_of};
ghost use Rattle.row_elimination.specs.Eliminations.{AreBelow, IsElimination, IsSound, StopGives};
ghost use Rattle.std.specs.Option.{option_map};

use crate::halt::Halt;
use crate::point::{all_hold_at, fill};
use crate::row::Row;
use crate::stage::{Stage, Used, place, run_stage};
use elimination_laws::WideStage;
use smallvec::SmallVec;
use st_linear::Line;
use st_memory::Memory;
use std::alloc::{AllocFailed, Global};

const MOST_LINES: usize = 4096;

/// What elimination comes to.
#[derive(Drop)]
pub enum Elimination {
    Contradiction(Vec<(u32, i64)>),
    NoContradiction(Option<Vec<i128>>),
    Wide(WideStage),
}

/// Why not all variables are gone.
#[derive(Drop)]
enum Stop {
    Clash(Vec<(u32, i64)>),
    Wide(WideStage),
    Memory,
}

impl<T: Drop> From<AllocFailed<T>> for Stop {
    ghost use Rattle.std.specs.Prelude.{◌≡◌};
    ghost use Rattle.row_elimination.specs.declared.top.Stop.TheVariants.{Memory};

    ghost from_gives = { λ _ stop. stop ≡ Memory };

    fn from(_: AllocFailed<T>) -> Self {
        Stop::Memory
    }
}

fn stop_of(halt: Halt, stage: WideStage) -> Stop
    ensures { IsStop halt stage result }
{
    match halt {
        Halt::Clash(picks) => Stop::Clash(picks),
        Halt::Wide => Stop::Wide(stage),
        Halt::Memory => Stop::Memory,
    }
}

/// An input line, as one times itself.
fn first(alloc: Global, number: u32, line: &Line) -> Result<Row, Memory>
    requires { IsTrue (are_within (2 ^ 100) line.now.form.entries) }
    ensures { IfOk result (λ row. tracked_row row ≡ first_row number line.now) }
{
    let mut picks = SmallVec::new(alloc);
    picks.push((number, 1))?;
    Ok(Row {
        equal: line.equal,
        constant: line.form.constant(),
        entries: SmallVec::from_slice(alloc, line.form.entries())?,
        picks,
    })
}

/// The input's lines without the constant ones.
fn first_rows(alloc: Global, lines: &[Line]) -> Result<Vec<Row>, Halt>
    requires within { AllWithin lines.now }
    requires few { length lines.now ≤ 4096 }
    ensures { GivesRows result (sift_from [] (map Some (tracked 0 lines.now))) }
{
    let mut next = Vec::with_capacity(alloc, lines.len())?;
    for i in 0..lines.len() {
        let row = first(alloc, i as u32, &lines[i])?;
        place(alloc, &mut next, row)?;
    }
    Ok(next)
}

/// The stages of all variables.
fn all_stages(alloc: Global, variables: u32, lines: Vec<Row>) -> Result<Vec<Used>, Stop>
    ensures { GivesUses result (stages variables 0 (rows lines.items)) }
{
    let mut current = lines;
    let mut uses = Vec::new(alloc);
    for v in 0..variables {
        match run_stage(alloc, v, current) {
            Ok(Stage { next, used }) => {
                current = next;
                uses.push(used)?;
            }
            Err(halt) => return Err(stop_of(halt, WideStage::Variable(v))),
        }
    }
    drop(current);
    Ok(uses)
}

/// All stages over the input's lines.
fn run(alloc: Global, lines: &[Line], variables: u32) -> Result<Vec<Used>, Stop>
    requires within { AllWithin lines.now }
    ensures { GivesUses result (ending lines.now variables) }
{
    if lines.len() > MOST_LINES {
        return Err(Stop::Wide(WideStage::Rows));
    }
    match first_rows(alloc, lines) {
        Ok(first) => all_stages(alloc, variables, first),
        Err(halt) => Err(stop_of(halt, WideStage::Rows)),
    }
}

/// What is known of each line by its type.
fn look_at(variables: u32, lines: &[Line])
    requires { AreBelow variables lines.now }
    ensures { AreProper variables lines.now }
{
    for line in lines {
        let _entries = line.form.entries();
    }
}

/// The trial point, if there is one.
fn point(
    alloc: Global,
    lines: &[Line],
    variables: u32,
    uses: &[Used],
) -> Result<Option<Vec<i128>>, Memory>
    requires { length uses.now < 2 ^ 32 }
    ensures { IfOk result (λ o. option_map (λ v. v.items) o ≡ point_of lines.now variables (uses_plain uses.now)) }
{
    let mut values = Vec::from_elem(alloc, 0, variables as usize)?;
    if fill(&mut values, uses) && all_hold_at(&values, lines) {
        Ok(Some(values))
    } else {
        Ok(None)
    }
}

fn stopped(stop: Stop) -> Result<Elimination, Memory>
    ensures { StopGives stop result }
{
    match stop {
        Stop::Clash(picks) => Ok(Elimination::Contradiction(picks)),
        Stop::Wide(stage) => Ok(Elimination::Wide(stage)),
        Stop::Memory => Err(Memory),
    }
}

/// Elimination of all variables.
pub fn eliminate(alloc: Global, lines: &[Line], variables: u32) -> Result<Elimination, Memory>
    requires within { AllWithin lines.now }
    requires below { AreBelow variables lines.now }
    ensures exact { IfOk result (λ e. IsElimination lines.now variables e) }
    ensures sound { IfOk result (λ e. IsSound lines.now e) }
{
    look_at(variables, lines);
    match run(alloc, lines, variables) {
        Ok(uses) => Ok(Elimination::NoContradiction(point(alloc, lines, variables, &uses)?)),
        Err(stop) => stopped(stop),
    }
}

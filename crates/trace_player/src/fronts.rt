//! Where control is: the location at which each process stands, or each child of a cooperation that is being run.

ghost use Rattle.std.specs.Prelude.{◌≡◌, ◌++◌, IfOk, OnOk, map};
ghost use Rattle.st_program.specs.Plain.{plain_children, plain_kind};
ghost use Rattle.st_program.specs.Residuals.{plain_residual, plain_residuals};
ghost use Rattle.st_program.specs.Spots.{spot};
ghost use Rattle.spl_semantics.specs.Control.{children_of, children_at, location_at, front, fronts};
ghost use Rattle.spl_semantics.specs.Plain.{plain_state};
ghost use Rattle.spl_semantics.specs.Runs.{control};
ghost use Rattle.trace_player.specs.Fronts.{end_at, AreLocations};

use crate::locating::{location_in, locations_of};
use st_memory::Memory;
use st_program::{Child, Kind, Program, Residual, State};
use std::alloc::Global;

/// The children of a cooperation.
#[tactic(auto, using(st_program::proofs::Rows::kinds))]
fn children_of(kind: &Kind) -> &[Child]
    ensures { plain_children result.now ≡ children_of (plain_kind kind.now) }
{
    match kind {
        Kind::Cooperate(children) => children,
        Kind::Skip | Kind::Critical | Kind::Noncritical => &[],
        Kind::Assign(_) | Kind::Await(_) | Kind::Request(_) | Kind::Release(_) => &[],
        Kind::If { .. } | Kind::While { .. } => &[],
        Kind::Block(_) | Kind::Select(_) | Kind::Group(_) => &[],
    }
}

/// The children of the cooperation with this occurrence.
fn children_at(program: &Program, occ: u32) -> &[Child]
    ensures { plain_children result.now ≡ children_at (spot (plain_children program.now.processes) occ) }
{
    match program.statement(occ) {
        Some(stmt) => children_of(&stmt.kind),
        None => &[],
    }
}

/// The end location of a child, or 0 where there is none in the place.
fn end_at(children: &[Child], place: usize) -> u32
    ensures { result ≡ end_at (plain_children children.now) place }
{
    match children.get(place) {
        Some(child) => child.end,
        None => 0,
    }
}

/// Adds the location of the statement with this occurrence.
fn push_location(
    program: &Program,
    known: &[Option<u32>],
    occ: u32,
    locations: &mut Vec<u32>,
) -> Result<(), Memory>
    requires { AreLocations (plain_children program.now.processes) known.now }
    ensures { OnOk result (locations.new.items ≡ locations.old.items ++ location_at (spot (plain_children program.now.processes) occ)) }
{
    if let Some(location) = location_in(program, known, occ) {
        locations.push(location)?;
    }
    Ok(())
}

/// Adds the front of what is left of a process, or of a child, with this end location.
#[cycle(fronts)]
#[tactic(auto, using(st_program::proofs::ResidualRows::residuals))]
fn push_front(
    program: &Program,
    known: &[Option<u32>],
    residual: &Residual,
    end: u32,
    locations: &mut Vec<u32>,
) -> Result<(), Memory>
    requires { AreLocations (plain_children program.now.processes) known.now }
    ensures { OnOk result (locations.new.items ≡ locations.old.items ++ front (plain_residual residual.now) (plain_children program.now.processes) end) }
{
    match residual {
        Residual::Done => {
            locations.push(end)?;
            Ok(())
        }
        Residual::Run(occ) => push_location(program, known, *occ, locations),
        Residual::Then { first, .. } => push_front(program, known, first, end, locations),
        Residual::Again { body, .. } => push_front(program, known, body, end, locations),
        Residual::Inside { coop, children } => {
            push_fronts(
                program,
                known,
                children,
                children_at(program, *coop),
                locations,
            )
        }
    }
}

/// Adds the fronts of what is left of these processes or children.
#[cycle(fronts)]
fn push_fronts(
    program: &Program,
    known: &[Option<u32>],
    residuals: &[Residual],
    children: &[Child],
    locations: &mut Vec<u32>,
) -> Result<(), Memory>
    requires { AreLocations (plain_children program.now.processes) known.now }
    ensures { OnOk result (locations.new.items ≡ locations.old.items ++ fronts (plain_residuals residuals.now) (plain_children program.now.processes) (plain_children children.now)) }
{
    for (place, residual) in residuals.iter().enumerate() {
        push_front(program, known, residual, end_at(children, place), locations)?;
    }
    Ok(())
}

/// The locations where control is, as those of statements are known.
fn control_by(
    alloc: Global,
    program: &Program,
    known: &[Option<u32>],
    state: &State,
) -> Result<Vec<u32>, Memory>
    requires { AreLocations (plain_children program.now.processes) known.now }
    ensures { IfOk result (λ v. v.items ≡ control (plain_children program.now.processes) (plain_state state.now)) }
{
    let processes = &program.processes;
    let mut locations = Vec::new(alloc);
    push_fronts(program, known, &state.residuals, processes, &mut locations)?;
    Ok(locations)
}

/// The locations where control is.
pub fn control(alloc: Global, program: &Program, state: &State) -> Result<Vec<u32>, Memory>
    ensures { IfOk result (λ v. v.items ≡ control (plain_children program.now.processes) (plain_state state.now)) }
{
    control_by(alloc, program, &[], state)
}

/// The locations where control is in each of these states.
pub fn fronts_of(
    alloc: Global,
    program: &Program,
    states: &[State],
) -> Result<Vec<Vec<u32>>, Memory>
    ensures { IfOk result (λ v. map (λ f. f.items) v.items ≡ map (λ s. control (plain_children program.now.processes) (plain_state s)) states.now) }
{
    let known = locations_of(alloc, program)?;
    let mut fronts = Vec::with_capacity(alloc, states.len())?;
    for state in states {
        fronts.push(control_by(alloc, program, &known, state)?)?;
    }
    Ok(fronts)
}

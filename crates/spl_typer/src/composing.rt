//! What a group amounts to. Along a path each test and right side is composed: its variables are replaced by the values
//! that were assigned before it on the path, so that it speaks of the store before the step (sequential composition of
//! assignments: Manna and Pnueli, Temporal Verification of Reactive Systems: Safety, 1995, section 0.2). Here numbers are composed;
//! of tests and truth values only the sizes are told, so that no text makes a formula much larger than itself.

ghost use Rattle.std.specs.Prelude.{◌≡◌, map, Ok, []};
ghost use Rattle.st_program.specs.Plain.{plain_term, plain_targets, plain_pieces};
ghost use Rattle.expression_typer.specs.Answers.{Gives};
ghost use Rattle.spl_typer.specs.Groups as rules;
ghost use Rattle.spl_typer.specs.Measured as told;
ghost use Rattle.spl_typer.specs.GroupViews.{link_view, path_view, path_views, measure_view};

use crate::measure::{Size, sized};
use crate::numbers::{all_small, composed_number, insert};
use crate::paths::{Link, count_along, paths_along};
use expression_typer::TypeFault;
use st_form::Lin;
use st_program::{Inner, Value};
use st_tokens::LimitKind;
use std::alloc::Global;

/// A composed right side: a number, or how large a truth value is.
#[derive(Drop)]
pub enum Side {
    Number(Lin),
    Truth(Size),
}

/// What is composed along a path so far: the sizes of its tests, the numbers that it gives, and the sizes of its truth values.
#[derive(Drop)]
pub struct Measure {
    pub tests: Vec<Size>,
    pub numbers: Vec<(u32, Lin)>,
    pub truths: Vec<(u32, Size)>,
}

const ATOMS: u64 = 2048;

const WEIGHT: u64 = 16_777_216;

const PATHS: u64 = 64;

fn few_atoms(at: u64, size: Size) -> Result<Size, TypeFault>
    ensures { Gives (λ s. s) result (told.few_atoms at size) }
{
    if size.atoms <= ATOMS {
        Ok(size)
    } else {
        Err(TypeFault::Limit(LimitKind::Atoms, at))
    }
}

fn side_on(alloc: Global, at: u64, measure: &Measure, value: &Value) -> Result<Side, TypeFault>
    ensures { Gives (λ s. s) result (told.side_on at (measure_view measure.now) (plain_term value.now)) }
{
    match value {
        Value::Number(form) => {
            let form = composed_number(alloc, at, &measure.numbers, form)?;
            Ok(Side::Number(form))
        }
        Value::Truth(form) => {
            let size = sized(alloc, at, &measure.numbers, &measure.truths, form)?;
            let size = few_atoms(at, size)?;
            Ok(Side::Truth(size))
        }
    }
}

/// The composed right sides of an assignment.
fn sides_on(
    alloc: Global,
    at: u64,
    measure: &Measure,
    changes: &[(u32, Value)],
) -> Result<Vec<(u32, Side)>, TypeFault>
    ensures { Gives (λ v. v.items) result (told.sides_on at (measure_view measure.now) [] (plain_targets changes.now)) }
{
    let mut out = Vec::new(alloc);
    for (var, value) in changes {
        let side = side_on(alloc, at, measure, value)?;
        out.push((*var, side))?;
    }
    Ok(out)
}

fn put(measure: Measure, var: u32, side: Side) -> Result<Measure, TypeFault>
    ensures { Gives measure_view result (Ok (told.put_side var side (measure_view measure))) }
{
    let mut measure = measure;
    match side {
        Side::Number(form) => {
            insert(&mut measure.numbers, var, form)?;
            Ok(measure)
        }
        Side::Truth(size) => {
            insert(&mut measure.truths, var, size)?;
            Ok(measure)
        }
    }
}

fn put_all(measure: Measure, new: Vec<(u32, Side)>) -> Result<Measure, TypeFault>
    ensures { Gives measure_view result (Ok (told.put_sides new.items (measure_view measure))) }
{
    let mut measure = measure;
    for (var, side) in new {
        measure = put(measure, var, side)?;
    }
    Ok(measure)
}

fn atoms_of(tests: &[Size]) -> u64
    ensures { result ≡ told.atoms_on 0 tests.now }
{
    let mut atoms: u64 = 0;
    for test in tests {
        atoms = atoms.saturating_add(test.atoms);
    }
    atoms
}

fn few_tests(at: u64, measure: Measure) -> Result<Measure, TypeFault>
    ensures { Gives measure_view result (told.few_tests at (measure_view measure)) }
{
    if atoms_of(&measure.tests) <= ATOMS {
        Ok(measure)
    } else {
        Err(TypeFault::Limit(LimitKind::Atoms, at))
    }
}

fn link_on(alloc: Global, at: u64, link: Link, measure: Measure) -> Result<Measure, TypeFault>
    ensures { Gives measure_view result (told.link_measured at (link_view link.entry) (measure_view measure)) }
{
    let mut measure = measure;
    match link {
        Link::Tested(test, _) => {
            let size = sized(alloc, at, &measure.numbers, &measure.truths, test)?;
            measure.tests.push(size)?;
            few_tests(at, measure)
        }
        Link::Given(changes) => {
            let new = sides_on(alloc, at, &measure, changes)?;
            put_all(measure, new)
        }
    }
}

fn path_on(alloc: Global, at: u64, path: &[Link]) -> Result<Measure, TypeFault>
    ensures { Gives measure_view result (told.path_measured at (map link_view path.now) told.no_measure) }
{
    let mut measure = Measure {
        tests: Vec::new(alloc),
        numbers: Vec::new(alloc),
        truths: Vec::new(alloc),
    };
    for link in path {
        measure = link_on(alloc, at, *link, measure)?;
    }
    Ok(measure)
}

fn numbers_weight(weight: u64, numbers: &[(u32, Lin)]) -> u64
    ensures { result ≡ rules.numbers_weight weight numbers.now }
{
    let mut weight = weight;
    for pair in numbers {
        weight = weight.saturating_add(pair.1.entries().len() as u64);
    }
    weight
}

fn tests_weight(weight: u64, tests: &[Size]) -> u64
    ensures { result ≡ told.tests_weight weight tests.now }
{
    let mut weight = weight;
    for test in tests {
        weight = weight.saturating_add(test.weight);
    }
    weight
}

fn values_weight(weight: u64, truths: &[(u32, Size)]) -> u64
    ensures { result ≡ told.values_weight weight truths.now }
{
    let mut weight = weight;
    for pair in truths {
        weight = weight.saturating_add(pair.1.weight);
    }
    weight
}

/// A weight with that of a path's guard and of the values that stand at its end.
fn with_path(weight: u64, measure: &Measure) -> u64
    ensures { result ≡ told.with_measure weight (measure_view measure.now) }
{
    let guard = tests_weight(weight, &measure.tests);
    let numbers = numbers_weight(guard, &measure.numbers);
    values_weight(numbers, &measure.truths)
}

fn paths_on(alloc: Global, at: u64, paths: &[Vec<Link>], weight: u64) -> Result<u64, TypeFault>
    ensures { Gives (λ w. w) result (told.paths_measured at (path_views paths.now) weight) }
{
    let mut weight = weight;
    for path in paths {
        let measure = path_on(alloc, at, path)?;
        weight = with_path(weight, &measure);
    }
    Ok(weight)
}

/// A weight with those of all paths.
#[tactic(auto, using(crate::proofs::Measures::measured))]
fn with_paths(alloc: Global, at: u64, paths: &[Vec<Link>], weight: u64) -> Result<u64, TypeFault>
    ensures { Gives (λ w. w) result (rules.with_paths at (path_views paths.now) weight) }
{
    paths_on(alloc, at, paths, weight)
}

/// The weight of all groups with this one, or the first of its limits that is passed.
pub fn grouped(alloc: Global, at: u64, pieces: &[Inner], weight: u64) -> Result<u64, TypeFault>
    ensures { Gives (λ w. w) result (rules.grouped at (plain_pieces pieces.now) weight) }
{
    if count_along(pieces) > PATHS {
        return Err(TypeFault::Limit(LimitKind::Paths, at));
    }
    let paths = paths_along(alloc, pieces)?;
    all_small(alloc, at, &paths)?;
    let weight = with_paths(alloc, at, &paths, weight)?;
    if weight > WEIGHT {
        return Err(TypeFault::Limit(LimitKind::Weight, at));
    }
    Ok(weight)
}

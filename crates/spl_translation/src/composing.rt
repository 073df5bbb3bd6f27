//! What a group does on each of its paths: tests and right sides over the store before the step.
//!
//! Going along the statements, a test is replaced by the values given so far, and so is a right side (assignments one
//! after another as one assignment: Manna and Pnueli, *Temporal Verification of Reactive Systems: Safety*, section 0.4).
//! A conditional goes on in two ways, the true branch first. A path whose numbers grow too large would be dropped; a
//! program has none, which is a law.

ghost use Rattle.std.specs.Prelude.{◌≡◌, ◌++◌, map, flat_map, OnOk, IfOk, Option};
ghost use Rattle.st_form.specs.Plain.{plain, plain_change};
ghost use Rattle.st_linear.specs.Answers.{Gives};
ghost use Rattle.st_program.specs.Groups.{tested, Composed as PlainComposed, composed_link, is_written, is_written_number, if_written, signed, paths_along};
ghost use Rattle.st_program.specs.Plain.{plain_inner, plain_pieces, plain_targets, plain_term};
ghost use Rattle.transition_system.specs.Plain.{plain_mode};
ghost use Rattle.spl_translation.specs.Translation.{path_modes};
ghost use Rattle.spl_translation.specs.Making.{plain_truths};
ghost use Rattle.spl_translation.specs.Composing.{listed, behind_assignment, onward, onward_along, term_before, terms_before, put_numbers, put_truths, composed_mode, plain_composed};

use crate::making::moving;
use crate::right_sides::{Values, copy_value, put};
use st_form::{Change, Form, Lin, LinFault, copy_all};
use st_memory::Memory;
use st_program::{Inner, Value};
use std::alloc::Global;
use std::collections::VecDeque;
use transition_system::Mode;

/// What is composed so far: tests that must hold before the step, and values over the store before the step.
#[derive(Drop)]
pub struct Composed {
    pub tests: Vec<Form>,
    pub values: Values,
}

/// The modes of a group at this location, which is followed by the location `next`: one for each path, in order.
pub fn path_modes(alloc: Global, pieces: &[Inner], at: u32, next: u32) -> Result<Vec<Mode>, Memory>
    ensures { IfOk result (λ v. map plain_mode v.items
        ≡ path_modes at (paths_along (plain_pieces pieces.now)) next) }
{
    let start = Composed {
        tests: Vec::new(alloc),
        values: Values::none(alloc),
    };
    let mut ends = VecDeque::new(alloc);
    compose_along(alloc, pieces, start, &mut ends)?;
    let mut modes = Vec::new(alloc);
    while let Some(end) = ends.pop_front() {
        modes.push(composed_mode(alloc, end, at, next)?)?;
    }
    Ok(modes)
}

/// The mode of a path: all its tests hold, and its values are given.
fn composed_mode(alloc: Global, composed: Composed, at: u32, next: u32) -> Result<Mode, Memory>
    ensures { IfOk result (λ m. plain_mode m ≡ composed_mode at next (plain_composed composed)) }
{
    let from = vec![in alloc; at]?;
    let to = vec![in alloc; next]?;
    moving(alloc, from, Form::And(composed.tests), composed.values, to)
}

/// What is composed behind statements one after another, on each path.
#[cycle(compose)]
fn compose_along(
    alloc: Global,
    pieces: &[Inner],
    start: Composed,
    out: &mut VecDeque<Composed>,
) -> Result<(), Memory>
    ensures { OnOk result (map plain_composed out.new.items
        ≡ map plain_composed out.old.items ++ onward_along (plain_pieces pieces.now) (plain_composed start)) }
{
    let mut paths = VecDeque::new(alloc);
    paths.push_back(start)?;
    for piece in pieces {
        paths = compose_each(alloc, piece, paths)?;
    }
    while let Some(path) = paths.pop_front() {
        out.push_back(path)?;
    }
    Ok(())
}

/// What is composed behind a statement, on each path that leads to it.
#[cycle(compose)]
fn compose_each(
    alloc: Global,
    piece: &Inner,
    paths: VecDeque<Composed>,
) -> Result<VecDeque<Composed>, Memory>
    ensures { IfOk result (λ v. map plain_composed v.items
        ≡ flat_map (onward (plain_inner piece.now)) (map plain_composed paths.items)) }
{
    let mut rest = paths;
    let mut out = VecDeque::new(alloc);
    while let Some(path) = rest.pop_front() {
        compose(alloc, piece, path, &mut out)?;
    }
    Ok(out)
}

/// What is composed behind a statement.
#[cycle(compose)]
#[tactic(auto, using(crate::proofs::Pieced::pieces))]
fn compose(
    alloc: Global,
    piece: &Inner,
    start: Composed,
    out: &mut VecDeque<Composed>,
) -> Result<(), Memory>
    ensures { OnOk result (map plain_composed out.new.items
        ≡ map plain_composed out.old.items ++ onward (plain_inner piece.now) (plain_composed start)) }
{
    match piece {
        Inner::Skip => {
            out.push_back(start)?;
            Ok(())
        }
        Inner::Assign(targets) => push_small(assign(alloc, targets, start), out),
        Inner::Await(test) => push_small(meet(alloc, test, true, start), out),
        Inner::If { test, yes, no } => {
            let other = copy_composed(alloc, &start)?;
            branch(alloc, yes, test, true, start, out)?;
            branch(alloc, no, test, false, other, out)
        }
    }
}

/// A branch of a conditional, where the test has this value.
#[cycle(compose)]
fn branch(
    alloc: Global,
    pieces: &[Inner],
    test: &Form,
    wanted: bool,
    start: Composed,
    out: &mut VecDeque<Composed>,
) -> Result<(), Memory>
    ensures { OnOk result (map plain_composed out.new.items
        ≡ map plain_composed out.old.items
        ++ flat_map (onward_along (plain_pieces pieces.now)) (listed (composed_link (tested (plain test.now) wanted) (plain_composed start)))) }
{
    match meet(alloc, test, wanted, start) {
        Ok(met) => compose_along(alloc, pieces, met, out),
        Err(LinFault::TooLarge) => Ok(()),
        Err(LinFault::Memory) => Err(Memory),
    }
}

/// Puts down what is composed, unless its numbers are too large.
fn push_small(
    composed: Result<Composed, LinFault>,
    out: &mut VecDeque<Composed>,
) -> Result<(), Memory>
    ensures { (o : Option PlainComposed) → Gives plain_composed composed o
        → OnOk result (map plain_composed out.new.items ≡ map plain_composed out.old.items ++ listed o) }
{
    match composed {
        Ok(path) => {
            out.push_back(path)?;
            Ok(())
        }
        Err(LinFault::TooLarge) => Ok(()),
        Err(LinFault::Memory) => Err(Memory),
    }
}

/// The path goes on where the test has this value.
fn meet(alloc: Global, test: &Form, wanted: bool, start: Composed) -> Result<Composed, LinFault>
    ensures { Gives plain_composed result (composed_link (tested (plain test.now) wanted) (plain_composed start)) }
{
    let mut tests = start.tests;
    let change = Change {
        numbers: start.values.numbers,
        truths: start.values.truths,
        leaves: Vec::new(alloc),
        enters: Vec::new(alloc),
    };
    let before = test.replace(alloc, &change)?;
    tests.push(signed(alloc, before, wanted)?)?;
    Ok(Composed {
        tests,
        values: Values {
            numbers: change.numbers,
            truths: change.truths,
        },
    })
}

/// The formula, or its negation.
fn signed(alloc: Global, form: Form, wanted: bool) -> Result<Form, Memory>
    ensures { IfOk result (λ f. plain f ≡ signed wanted (plain form)) }
{
    if wanted {
        Ok(form)
    } else {
        Ok(Form::Not(Box::new(alloc, form)?))
    }
}

/// The path goes on behind an assignment. All right sides are read before the first value is put.
fn assign(alloc: Global, targets: &[(u32, Value)], start: Composed) -> Result<Composed, LinFault>
    ensures { Gives plain_composed result (behind_assignment (plain_targets targets.now) (plain_composed start)) }
{
    let change = Change {
        numbers: start.values.numbers,
        truths: start.values.truths,
        leaves: Vec::new(alloc),
        enters: Vec::new(alloc),
    };
    let terms = terms_before(alloc, targets, &change)?;
    let mut values = Values {
        numbers: change.numbers,
        truths: change.truths,
    };
    put_each(terms, &mut values)?;
    Ok(Composed {
        tests: start.tests,
        values,
    })
}

/// Values put one after another.
fn put_each(terms: VecDeque<(u32, Value)>, values: &mut Values) -> Result<(), Memory>
    ensures numbers { OnOk result (values.new.numbers.items ≡ put_numbers (plain_targets terms.items) values.old.numbers.items) }
    ensures truths { OnOk result (plain_truths values.new.truths.items ≡ put_truths (plain_targets terms.items) (plain_truths values.old.truths.items)) }
{
    let mut rest = terms;
    while let Some((var, value)) = rest.pop_front() {
        put(values, var, value)?;
    }
    Ok(())
}

/// The right sides over the store before the step.
fn terms_before(
    alloc: Global,
    targets: &[(u32, Value)],
    change: &Change,
) -> Result<VecDeque<(u32, Value)>, LinFault>
    ensures { Gives (λ v. plain_targets v.items) result (terms_before (plain_change change.now) (plain_targets targets.now)) }
{
    let mut out = VecDeque::new(alloc);
    for target in targets {
        out.push_back((target.0, term_before(alloc, &target.1, change)?))?;
    }
    Ok(out)
}

/// A right side over the store before the step; its numbers stay as small as written ones.
fn term_before(alloc: Global, value: &Value, change: &Change) -> Result<Value, LinFault>
    ensures { Gives plain_term result (term_before (plain_change change.now) (plain_term value.now)) }
{
    match value {
        Value::Number(form) => Ok(Value::Number(written(form.replace(alloc, &change.numbers)?)?)),
        Value::Truth(form) => Ok(Value::Truth(form.replace(alloc, change)?)),
    }
}

/// The form, or `TooLarge` exactly where a number of it is above 2^30 in size.
fn written(form: Lin) -> Result<Lin, LinFault>
    ensures { Gives (λ f. f) result (if_written form) }
{
    if is_written(&form) {
        Ok(form)
    } else {
        Err(LinFault::TooLarge)
    }
}

/// Whether all numbers of the form are at most 2^30 in size.
fn is_written(form: &Lin) -> bool
    ensures { result ≡ is_written form.now }
{
    if !is_written_number(form.constant()) {
        return false;
    }
    for entry in form.entries() {
        if !is_written_number(entry.1) {
            return false;
        }
    }
    true
}

fn is_written_number(number: i128) -> bool
    ensures { result ≡ is_written_number number }
{
    number.unsigned_abs() <= 1 << 30
}

/// An equal composition.
fn copy_composed(alloc: Global, composed: &Composed) -> Result<Composed, Memory>
    ensures { IfOk result (λ c. plain_composed c ≡ plain_composed composed.now) }
{
    let mut numbers = Vec::new(alloc);
    for pair in &composed.values.numbers {
        numbers.push((pair.0, pair.1.copy(alloc)?))?;
    }
    let mut truths = Vec::new(alloc);
    for pair in &composed.values.truths {
        truths.push((pair.0, pair.1.copy(alloc)?))?;
    }
    Ok(Composed {
        tests: copy_all(alloc, &composed.tests)?,
        values: Values { numbers, truths },
    })
}

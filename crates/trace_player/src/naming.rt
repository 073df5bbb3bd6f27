//! The names of a program's transitions, in order, each with what is owed to it.

ghost use Rattle.std.specs.Prelude.{◌≡◌, ℕ, ◌++◌, ◌∷◌, [], false, Some, IfOk, OnOk, map, slice_get};
ghost use Rattle.st_form.specs.declared.conditions.Part.{Part};
ghost use Rattle.st_form.specs.declared.conditions.TransName.TheVariants.{Step};
ghost use Rattle.st_program.specs.Plain.{plain_kind, plain_children};
ghost use Rattle.spl_semantics.specs.Names.{own_names, all_names, same_name};
ghost use Rattle.spl_semantics.specs.Runs.{place_in};
ghost use Rattle.trace_player.specs.Playing.{is_among};
ghost use Rattle.trace_player.specs.Courses.{Marks};

use crate::enabling::same_name;
use observations::Fairness;
use st_form::{Part, TransName};
use st_memory::Memory;
use st_program::{Kind, Program};
use std::alloc::Global;

/// Adds the name of one part of a statement.
fn push_part(
    names: &mut Vec<(TransName, Fairness)>,
    occ: u32,
    part: Part,
    fairness: Fairness,
) -> Result<(), Memory>
    ensures { OnOk result (names.new.items ≡ names.old.items ++ (Step occ part, fairness) ∷ []) }
{
    names.push((TransName::Step { occ, part }, fairness))?;
    Ok(())
}

/// Adds the names of a statement's own transitions.
#[tactic(auto, using(st_program::proofs::Rows::kinds))]
fn push_own(names: &mut Vec<(TransName, Fairness)>, occ: u32, kind: &Kind) -> Result<(), Memory>
    ensures { OnOk result (names.new.items ≡ names.old.items ++ own_names (plain_kind kind.now) occ) }
{
    match kind {
        Kind::Block(_) | Kind::Select(_) => Ok(()),
        Kind::Noncritical => push_part(names, occ, Part::Whole, Fairness::Unfair),
        Kind::Request(_) => push_part(names, occ, Part::Whole, Fairness::Compassionate),
        Kind::Cooperate(_) => {
            push_part(names, occ, Part::Entry, Fairness::Just)?;
            push_part(names, occ, Part::Exit, Fairness::Just)
        }
        Kind::Skip | Kind::Critical => push_part(names, occ, Part::Whole, Fairness::Just),
        Kind::Assign(_) | Kind::Await(_) => push_part(names, occ, Part::Whole, Fairness::Just),
        Kind::Release(_) | Kind::Group(_) => push_part(names, occ, Part::Whole, Fairness::Just),
        Kind::If { .. } | Kind::While { .. } => push_part(names, occ, Part::Whole, Fairness::Just),
    }
}

/// All names in order: idling, and then each statement's own.
pub fn all_names(alloc: Global, program: &Program) -> Result<Vec<(TransName, Fairness)>, Memory>
    ensures { IfOk result (λ v. v.items ≡ all_names (plain_children program.now.processes)) }
{
    let mut names = Vec::new(alloc);
    names.push((TransName::Idle, Fairness::Unfair))?;
    for occ in 0..program.statements {
        if let Some(stmt) = program.statement(occ) {
            push_own(&mut names, stmt.occ, &stmt.kind)?;
        }
    }
    Ok(names)
}

/// The place of a name.
pub fn place_in(names: &[(TransName, Fairness)], name: TransName) -> usize
    ensures { result ≡ place_in names.now name }
{
    for place in 0..names.len() {
        if same_name(name, names[place].0) {
            return place;
        }
    }
    names.len()
}

/// Whether a name is one of these.
fn is_among(name: TransName, row: &[TransName]) -> bool
    ensures { result ≡ is_among name row.now }
{
    for other in row {
        if same_name(*other, name) {
            return true;
        }
    }
    false
}

/// Sets the flag of the name's statement.
fn mark(marks: &mut [bool], name: TransName)
    ensures { (occ : ℕ) → slice_get marks.new occ ≡ Some false → (slice_get marks.old occ ≡ Some false) × ((part : Part) → same_name name (Step occ part) ≡ false) }
{
    if let TransName::Step { occ, .. } = name {
        let place = occ as usize;
        if place < marks.len() {
            marks[place] = true;
        }
    }
}

/// Sets the flags of the statements of which the row has a name.
fn mark_all(marks: &mut [bool], row: &[TransName])
    ensures { Marks row.now marks.new }
{
    for name in row {
        mark(marks, *name);
    }
}

/// Whether the name is in the row. Where its statement isn't marked it isn't.
fn is_marked(name: TransName, row: &[TransName], marks: &[bool]) -> bool
    requires { Marks row.now marks.now }
    ensures { result ≡ is_among name row.now }
{
    if let TransName::Step { occ, .. } = name {
        if let Some(false) = marks.get(occ as usize) {
            return false;
        }
    }
    is_among(name, row)
}

/// For each name a flag, whether it is one of these. Few statements have a name in a row, and only their names are looked for.
pub fn flags_of(
    alloc: Global,
    names: &[(TransName, Fairness)],
    row: &[TransName],
    statements: u32,
) -> Result<Vec<bool>, Memory>
    ensures { IfOk result (λ v. v.items ≡ map (λ n. is_among n.0 row.now) names.now) }
{
    let mut marks = vec![in alloc; false; statements as usize]?;
    mark_all(&mut marks, row);
    let mut flags = Vec::with_capacity(alloc, names.len())?;
    for known in names {
        flags.push(is_marked(known.0, row, &marks))?;
    }
    Ok(flags)
}

/// What is owed to each name.
pub fn fairness_of(alloc: Global, names: &[(TransName, Fairness)]) -> Result<Vec<Fairness>, Memory>
    ensures { IfOk result (λ v. v.items ≡ map (λ n. n.1) names.now) }
{
    let mut fairness = Vec::new(alloc);
    for known in names {
        fairness.push(known.1)?;
    }
    Ok(fairness)
}

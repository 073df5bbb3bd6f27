//! The four kinds of condition. Each call looks for room first, then builds its condition and appends it.

ghost use Rattle.std.specs.Prelude.{map};
ghost use Rattle.st_form.specs.Plain.{plain};
ghost use Rattle.transition_system.specs.Plain.{plain_mode, plain_system};
ghost use Rattle.vc_generator.specs.Building.{start_of, entails_of, triple_of, moved_of};
ghost use Rattle.vc_generator.specs.Plain.{plain_list, plain_case};
ghost use Rattle.vc_generator.specs.Refusing.{Appends};

use crate::conditions::{Conditions, append, room_for};
use crate::counts::{atoms_in_all, given_atoms, shown_atoms, two_atoms};
use crate::faults::VcFault;
use crate::making::{make_entails, make_moved, make_start, make_triple};
use st_form::{CondName, Form};
use st_linear::Lin;
use std::alloc::Global;
use transition_system::{Fts, Mode};

/// A case of where a step may lead: a formula that holds before the step, one that holds behind it, and pairs of numbers, of
/// which the first behind the step is at most the second before it.
#[derive(Drop)]
pub struct Case {
    pub now: Form,
    pub behind: Form,
    pub falls: Vec<(Lin, Lin)>,
}

/// Appends the condition that the formula holds at the start of the system, where the lemmas hold.
pub fn start(
    alloc: Global,
    fts: &Fts,
    lemmas: &[Form],
    form: &Form,
    name: CondName,
    out: &mut Conditions,
) -> Result<(), VcFault>
    ensures { Appends result (plain_list out.old) (plain_list out.new)
        (start_of (plain_system fts.now) (map plain lemmas.now) (plain form.now) name) }
{
    let atoms = atoms_in_all(lemmas).saturating_add(two_atoms(&fts.initial, form));
    room_for(out, atoms)?;
    let condition = make_start(alloc, &mut out.sharing.pool, fts, lemmas, form, name)?;
    append(out, condition)
}

/// Appends the condition that where `given` and the lemmas hold, `shown` does.
pub fn entails(
    alloc: Global,
    lemmas: &[Form],
    given: &Form,
    shown: &Form,
    name: CondName,
    out: &mut Conditions,
) -> Result<(), VcFault>
    ensures { Appends result (plain_list out.old) (plain_list out.new)
        (entails_of (map plain lemmas.now) (plain given.now) (plain shown.now) name) }
{
    let atoms = atoms_in_all(lemmas).saturating_add(two_atoms(given, shown));
    room_for(out, atoms)?;
    let condition = make_entails(alloc, &mut out.sharing.pool, lemmas, given, shown, name)?;
    append(out, condition)
}

/// Appends the condition that from `before` each step by the mode leads to `behind`, unless `now` held before it. A `now` that
/// is `False` isn't written.
pub fn triple(
    alloc: Global,
    mode: &Mode,
    lemmas: &[Form],
    before: &Form,
    behind: &Form,
    now: &Form,
    name: CondName,
    out: &mut Conditions,
) -> Result<(), VcFault>
    ensures { Appends result (plain_list out.old) (plain_list out.new)
        (triple_of (plain_mode mode.now) (map plain lemmas.now) (plain before.now) (plain behind.now) (plain now.now) name) }
{
    let shown = behind
        .atoms_behind(&mode.change)
        .saturating_add(now.atoms());
    let atoms = given_atoms(mode, lemmas, before).saturating_add(shown);
    room_for(out, atoms)?;
    let condition = make_triple(
        alloc,
        &mut out.sharing,
        mode,
        lemmas,
        before,
        behind,
        now,
        name,
    )?;
    append(out, condition)
}

/// Appends the condition that from `before` each step by the mode leads as one of the cases says. A `now` that is `True` isn't
/// written.
pub fn moved(
    alloc: Global,
    mode: &Mode,
    lemmas: &[Form],
    before: &Form,
    cases: &[Case],
    name: CondName,
    out: &mut Conditions,
) -> Result<(), VcFault>
    ensures { Appends result (plain_list out.old) (plain_list out.new)
        (moved_of (plain_mode mode.now) (map plain lemmas.now) (plain before.now) (map plain_case cases.now) name) }
{
    let atoms = given_atoms(mode, lemmas, before).saturating_add(shown_atoms(mode, cases));
    room_for(out, atoms)?;
    let condition = make_moved(alloc, &mut out.sharing, mode, lemmas, before, cases, name)?;
    append(out, condition)
}

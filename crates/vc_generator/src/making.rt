//! The four kinds of condition, made of shared formulas.

ghost use Rattle.std.specs.Prelude.{◌≡◌, IfOk, map};
ghost use Rattle.st_form.specs.Formula.{Formula};
ghost use Rattle.st_form.specs.Plain.{plain};
ghost use Rattle.st_form.specs.Shared.{consequent_of, plain_condition};
ghost use Rattle.transition_system.specs.Plain.{plain_mode, plain_system};
ghost use Rattle.transition_system.specs.Systems.{PlainMode};
ghost use Rattle.vc_generator.specs.Building.{start_of, entails_of, triple_of, moved_of, behind_or, after as after_of};
ghost use Rattle.vc_generator.specs.Plain.{plain_case};

use crate::building::Case;
use crate::cases::shown_cases;
use crate::given::{given_before, push_conjuncts};
use crate::hashes::change_hash;
use crate::pools::{Pool, share_all, shared};
use crate::sharing::{Sharing, before as put_before};
use st_form::{CondName, Condition, Consequent, Form, SharedForm};
use st_memory::Memory;
use std::alloc::Global;
use transition_system::{Fts, Mode};

pub fn make_start(
    alloc: Global,
    pool: &mut Pool,
    fts: &Fts,
    lemmas: &[Form],
    form: &Form,
    name: CondName,
) -> Result<Condition, Memory>
    ensures { IfOk result (λ c. plain_condition c ≡ (start_of (plain_system fts.now) (map plain lemmas.now) (plain form.now) name).condition) }
{
    let mut given = Vec::new(alloc);
    share_all(alloc, pool, lemmas, &mut given)?;
    push_conjuncts(alloc, pool, &fts.initial, &mut given)?;
    let shown = shared(alloc, pool, form)?;
    Ok(Condition {
        given,
        shown: Consequent::One(shown),
        name,
    })
}

pub fn make_entails(
    alloc: Global,
    pool: &mut Pool,
    lemmas: &[Form],
    given: &Form,
    shown: &Form,
    name: CondName,
) -> Result<Condition, Memory>
    ensures { IfOk result (λ c. plain_condition c ≡ (entails_of (map plain lemmas.now) (plain given.now) (plain shown.now) name).condition) }
{
    let mut all = Vec::new(alloc);
    share_all(alloc, pool, lemmas, &mut all)?;
    all.push(shared(alloc, pool, given)?)?;
    let shown = shared(alloc, pool, shown)?;
    Ok(Condition {
        given: all,
        shown: Consequent::One(shown),
        name,
    })
}

pub fn make_triple(
    alloc: Global,
    sharing: &mut Sharing,
    mode: &Mode,
    lemmas: &[Form],
    before: &Form,
    behind: &Form,
    now: &Form,
    name: CondName,
) -> Result<Condition, Memory>
    ensures { IfOk result (λ c. plain_condition c ≡ (triple_of (plain_mode mode.now) (map plain lemmas.now) (plain before.now) (plain behind.now) (plain now.now) name).condition) }
{
    let given = given_before(alloc, &mut sharing.pool, mode, lemmas, before)?;
    let behind = put_before(alloc, sharing, behind, mode, change_hash(&mode.change))?;
    let shown = unless_now(alloc, &mut sharing.pool, behind, now)?;
    Ok(Condition { given, shown, name })
}

/// A formula, or one that holds now. One that is `False` isn't written.
fn unless_now(
    alloc: Global,
    pool: &mut Pool,
    behind: SharedForm,
    now: &Form,
) -> Result<Consequent, Memory>
    ensures { (m : PlainMode) (f : Formula) → plain behind ≡ after_of m f → IfOk result (λ c. consequent_of c ≡ behind_or m f (plain now.now)) }
{
    match now {
        Form::False => Ok(Consequent::One(behind)),
        _ => {
            let now = shared(alloc, pool, now)?;
            let behind = vec![in alloc; behind]?;
            let now = vec![in alloc; now]?;
            Ok(Consequent::Any(vec![in alloc; behind, now]?))
        }
    }
}

pub fn make_moved(
    alloc: Global,
    sharing: &mut Sharing,
    mode: &Mode,
    lemmas: &[Form],
    before: &Form,
    cases: &[Case],
    name: CondName,
) -> Result<Condition, Memory>
    ensures { IfOk result (λ c. plain_condition c ≡ (moved_of (plain_mode mode.now) (map plain lemmas.now) (plain before.now) (map plain_case cases.now) name).condition) }
{
    let given = given_before(alloc, &mut sharing.pool, mode, lemmas, before)?;
    let shown = shown_cases(alloc, sharing, mode, cases)?;
    Ok(Condition {
        given,
        shown: Consequent::Any(shown),
        name,
    })
}

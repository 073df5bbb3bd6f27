//! What is shown of cases: each case is a list of formulas, of which all are to hold.

ghost use Rattle.std.specs.Prelude.{◌≡◌, ◌++◌, ◌∷◌, map, IfOk, OnOk};
ghost use Rattle.st_form.specs.Plain.{plain};
ghost use Rattle.st_form.specs.Shared.{case_of as conjunction_of};
ghost use Rattle.transition_system.specs.Plain.{plain_mode};
ghost use Rattle.vc_generator.specs.Building.{case_of, unless_true};
ghost use Rattle.vc_generator.specs.Plain.{plain_case};

use crate::building::Case;
use crate::falls::push_falls;
use crate::hashes::change_hash;
use crate::pools::{Pool, shared};
use crate::sharing::{Sharing, before as put_before};
use st_form::{Form, SharedForm};
use st_memory::Memory;
use std::alloc::Global;
use transition_system::Mode;

/// The cases before the mode.
pub fn shown_cases(
    alloc: Global,
    sharing: &mut Sharing,
    mode: &Mode,
    cases: &[Case],
) -> Result<Vec<Vec<SharedForm>>, Memory>
    ensures { IfOk result (λ v. map conjunction_of v.items ≡ map (case_of (plain_mode mode.now)) (map plain_case cases.now)) }
{
    let hash = change_hash(&mode.change);
    let mut shown = Vec::with_capacity(alloc, cases.len())?;
    for case in cases {
        shown.push(shown_case(alloc, sharing, mode, hash, case)?)?;
    }
    Ok(shown)
}

fn shown_case(
    alloc: Global,
    sharing: &mut Sharing,
    mode: &Mode,
    hash: u64,
    case: &Case,
) -> Result<Vec<SharedForm>, Memory>
    ensures { IfOk result (λ v. conjunction_of v ≡ case_of (plain_mode mode.now) (plain_case case.entry.now)) }
{
    let count = case.falls.len().saturating_add(2);
    let mut parts = Vec::with_capacity(alloc, count)?;
    push_now(alloc, &mut sharing.pool, &case.now, &mut parts)?;
    parts.push(put_before(alloc, sharing, &case.behind, mode, hash)?)?;
    push_falls(alloc, &mut sharing.pool, mode, &case.falls, &mut parts)?;
    Ok(parts)
}

fn push_now(
    alloc: Global,
    pool: &mut Pool,
    form: &Form,
    out: &mut Vec<SharedForm>,
) -> Result<(), Memory>
    ensures { OnOk result (map plain out.new.items ≡ map plain out.old.items ++ unless_true (plain form.now)) }
{
    match form {
        Form::True => Ok(()),
        _ => {
            out.push(shared(alloc, pool, form)?)?;
            Ok(())
        }
    }
}

//! Pairs of numbers that fall. Ranks mostly are numbers, which no mode changes: then their difference alone says which row is shown,
//! and that row is looked up by the difference before anything is made.

ghost use Rattle.std.specs.Prelude.{◌≡◌, ◌++◌, [], ◌+ℤ◌, neg_ℤ, true, IsTrue, IfOk, IfSome, OnOk, map};
ghost use Rattle.st_form.specs.Formula.{row};
ghost use Rattle.st_form.specs.Plain.{plain};
ghost use Rattle.st_linear.specs.Linear.{is_small, number};
ghost use Rattle.transition_system.specs.Plain.{plain_mode};
ghost use Rattle.vc_generator.specs.Building.{falls_to as falls_to_of};

use crate::numbers::falls_to;
use crate::pools::{Pool, taken};
use hint_index::{Index, enter, folded, hint, mixed};
use st_form::{Form, SharedForm};
use st_linear::Lin;
use st_memory::Memory;
use std::alloc::Global;
use transition_system::Mode;

/// Appends that each first number behind the mode is at most the second before it.
pub fn push_falls(
    alloc: Global,
    pool: &mut Pool,
    mode: &Mode,
    falls: &[(Lin, Lin)],
    out: &mut Vec<SharedForm>,
) -> Result<(), Memory>
    ensures { OnOk result (map plain out.new.items ≡ map plain out.old.items ++ map (falls_to_of (plain_mode mode.now)) falls.now) }
{
    for pair in falls {
        out.push(fall(alloc, pool, mode, &pair.0, &pair.1)?)?;
    }
    Ok(())
}

fn fall(
    alloc: Global,
    pool: &mut Pool,
    mode: &Mode,
    behind: &Lin,
    before: &Lin,
) -> Result<SharedForm, Memory>
    ensures { IfOk result (λ s. plain s ≡ falls_to_of (plain_mode mode.now) (behind.now, before.now)) }
{
    if behind.entries().is_empty() && before.entries().is_empty() {
        return number_fall(alloc, pool, mode, behind, before);
    }
    let made = falls_to(alloc, mode, behind, before)?;
    taken(alloc, pool, made)
}

/// The same of numbers.
#[tactic(auto, using(crate::proofs::Differences::falls))]
fn number_fall(
    alloc: Global,
    pool: &mut Pool,
    mode: &Mode,
    behind: &Lin,
    before: &Lin,
) -> Result<SharedForm, Memory>
    requires behind { behind.now.entries ≡ [] }
    requires before { before.now.entries ≡ [] }
    ensures { IfOk result (λ s. plain s ≡ falls_to_of (plain_mode mode.now) (behind.now, before.now)) }
{
    let difference = difference(before, behind);
    let hash = number_hash(&difference);
    let known = hint(pool.numbers.slots(), hash);
    match number_row(&pool.forms, known, &difference)? {
        Some(same) => Ok(same),
        None => {
            let row = falls_to(alloc, mode, behind, before)?;
            let kept = taken(alloc, pool, row)?;
            enter_number(alloc, &mut pool.numbers, hash, known, &kept)?;
            Ok(kept)
        }
    }
}

/// Enters the row of a number. Where another one is known by its hash it isn't entered, since the index would always give the other one.
fn enter_number(
    alloc: Global,
    numbers: &mut Index,
    hash: u32,
    known: u32,
    row: &SharedForm,
) -> Result<(), Memory> {
    if known != 0 {
        return Ok(());
    }
    enter(alloc, numbers, hash, row.hint().saturating_add(1))
}

/// How much greater the first constant is.
#[tactic(auto, unfolding(st_linear::specs::Linear::is_within))]
fn difference(form: &Lin, other: &Lin) -> i128
    ensures { result ≡ form.now.constant +ℤ neg_ℤ other.now.constant }
{
    form.constant() - other.constant()
}

/// The hash of a number: its sign and low bits, since few numbers are met and what is found is compared.
fn number_hash(value: &i128) -> u32 {
    let sign = if *value < 0 { 1 } else { 0 };
    let low = (value.unsigned_abs() & 0xFFFF_FFFF_FFFF_FFFF) as u64;
    folded(mixed(sign, low))
}

/// The formula of this place, counted from 1, if it is the row of this number.
fn number_row(forms: &[SharedForm], known: u32, value: &i128) -> Result<Option<SharedForm>, Memory>
    ensures row { IfOk result (λ o. IfSome o (λ s. plain s ≡ row (number value.now))) }
    ensures small { IfOk result (λ o. IfSome o (λ s. IsTrue (is_small value.now))) }
{
    match forms.get((known as usize).wrapping_sub(1)) {
        None => Ok(None),
        Some(kept) => {
            if is_number_row(kept.get(), value) {
                return Ok(Some(kept.share()?));
            }
            Ok(None)
        }
    }
}

/// Whether a formula is the row of this number.
#[tactic(auto, using(crate::proofs::Differences::falls))]
fn is_number_row(form: &Form, value: &i128) -> bool
    ensures { result ≡ true → (plain form.now ≡ row (number value.now)) × IsTrue (is_small value.now) }
{
    match form {
        Form::Row(f) => is_number(f, value),
        _ => false,
    }
}

/// Whether a form is this number.
#[tactic(auto, using(crate::proofs::Differences::falls))]
fn is_number(form: &Lin, value: &i128) -> bool
    ensures { result ≡ true → (form.now ≡ number value.now) × IsTrue (is_small value.now) }
{
    form.constant() == *value && form.entries().is_empty()
}

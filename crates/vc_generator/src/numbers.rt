//! Comparisons of linear forms as formulas, before and behind a mode.

ghost use Rattle.std.specs.Prelude.{◌≡◌, [], IfOk};
ghost use Rattle.st_form.specs.Plain.{plain};
ghost use Rattle.transition_system.specs.Plain.{plain_mode};
ghost use Rattle.vc_generator.specs.Building.{after as after_of, at_least as at_least_of, at_least_both as at_least_both_of, falls_to as falls_to_of};

use st_form::Form;
use st_linear::{Lin, LinFault};
use st_memory::Memory;
use std::alloc::Global;
use transition_system::Mode;

/// The formula that holds before the mode exactly where `form` holds behind it, or `False` where it can't be written.
pub fn after(alloc: Global, form: &Form, mode: &Mode) -> Result<Form, Memory>
    ensures { IfOk result (λ f. plain f ≡ after_of (plain_mode mode.now) (plain form.now)) }
{
    match form.replace(alloc, &mode.change) {
        Ok(before) => Ok(before),
        Err(LinFault::TooLarge) => Ok(Form::False),
        Err(LinFault::Memory) => Err(Memory),
    }
}

/// The first form is at least the second.
pub fn at_least(alloc: Global, form: &Lin, other: &Lin) -> Result<Form, Memory>
    ensures { IfOk result (λ f. plain f ≡ at_least_of form.now other.now) }
{
    if form.entries().is_empty() && other.entries().is_empty() {
        return number_at_least(alloc, form, other);
    }
    let opposite = other.negated(alloc)?;
    match form.add(alloc, &opposite) {
        Ok(difference) => Ok(Form::Row(difference)),
        Err(LinFault::TooLarge) => Ok(Form::False),
        Err(LinFault::Memory) => Err(Memory),
    }
}

/// The same where the forms are numbers, as ranks mostly are.
#[tactic(auto, using(crate::proofs::Differences::differences), unfolding(st_linear::specs::Linear::is_within))]
fn number_at_least(alloc: Global, form: &Lin, other: &Lin) -> Result<Form, Memory>
    requires form { form.now.entries ≡ [] }
    requires other { other.now.entries ≡ [] }
    ensures { IfOk result (λ f. plain f ≡ at_least_of form.now other.now) }
{
    let difference = form.constant() - other.constant();
    match Lin::constant_of(alloc, difference) {
        Ok(number) => Ok(Form::Row(number)),
        Err(LinFault::TooLarge) => Ok(Form::False),
        Err(LinFault::Memory) => Err(Memory),
    }
}

/// The first form is at least the sum of the others.
pub fn at_least_both(alloc: Global, form: &Lin, first: &Lin, second: &Lin) -> Result<Form, Memory>
    ensures { IfOk result (λ f. plain f ≡ at_least_both_of form.now first.now second.now) }
{
    let opposite = first.negated(alloc)?;
    match form.add(alloc, &opposite) {
        Ok(difference) => at_least(alloc, &difference, second),
        Err(LinFault::TooLarge) => Ok(Form::False),
        Err(LinFault::Memory) => Err(Memory),
    }
}

/// The first form behind the mode is at most the second before it.
pub fn falls_to(alloc: Global, mode: &Mode, behind: &Lin, before: &Lin) -> Result<Form, Memory>
    ensures { IfOk result (λ f. plain f ≡ falls_to_of (plain_mode mode.now) (behind.now, before.now)) }
{
    match behind.replace(alloc, mode.change.numbers.as_slice()) {
        Ok(number) => at_least(alloc, before, &number),
        Err(LinFault::TooLarge) => Ok(Form::False),
        Err(LinFault::Memory) => Err(Memory),
    }
}

//! Settings: each gives a variable its value.

ghost use Rattle.std.specs.Prelude.{◌≡◌, ◌≤◌, IfOk, OnOk, slice_set, Some};
ghost use Rattle.st_tokens.specs.Stream.{stream};
ghost use Rattle.st_reading.specs.Reading.{Reads, size};
ghost use Rattle.st_reading.specs.Faults.{name_view};
ghost use Rattle.expression_typer.specs.Naming.{names_of};
ghost use Rattle.schedule_reader.specs.Faults.{see};
ghost use Rattle.schedule_reader.specs.Settings.{is_set, unset_in, setting_of, Chosen};

use crate::fault::ScheduleFault;
use crate::value::typed_value;
use assertions::text_of;
use st_program::{Datum, NameTable};
use st_reading::{Mark, RawName, expect};
use st_tokens::Tokens;

/// Whether the variable has a value.
fn is_set(store: &[Option<Datum>], variable: u32) -> bool
    ensures { result ≡ is_set store.now variable }
{
    match store.get(variable as usize) {
        Some(Some(_)) => true,
        Some(None) => false,
        None => false,
    }
}

/// The variable with this name, and whether it is boolean.
fn variable(names: &NameTable, name: &[u8]) -> Option<(u32, bool)>
    ensures { result ≡ (names_of names.now).variable name.now }
{
    let variable = names.variable(text_of(name)?)?;
    Some((variable, names.truth(variable)))
}

/// The variable with this name, which has no value so far, and whether it is boolean.
fn unset(
    names: &NameTable,
    store: &[Option<Datum>],
    name: &RawName<'_>,
) -> Result<(u32, bool), ScheduleFault>
    ensures { Chosen result (unset_in names.now store.now (name_view name.now)) }
{
    let Some((variable, truth)) = variable(names, name.text) else {
        return Err(ScheduleFault::Unknown(name.place));
    };
    if is_set(store, variable) {
        return Err(ScheduleFault::Twice(name.place));
    }
    Ok((variable, truth))
}

/// Gives a variable its value.
fn set(store: &mut [Option<Datum>], variable: u32, value: Datum)
    ensures { store.new ≡ slice_set store.old variable (Some value) }
{
    if (variable as usize) < store.len() {
        store[variable as usize] = Some(value);
    }
}

/// A setting behind the name that it begins with.
#[tactic(auto, unfolding(crate::specs::Settings::setting_of))]
pub fn setting(
    names: &NameTable,
    name: &RawName<'_>,
    store: &mut [Option<Datum>],
    tokens: &mut Tokens<'_>,
) -> Result<(), ScheduleFault>
    ensures reads { Reads see (λ _. store.new) result (stream tokens.new) (setting_of names.now (name_view name.now) store.old (stream tokens.old)) }
    ensures shrinks { IfOk result (λ _. size (stream tokens.new) ≤ size (stream tokens.old)) }
{
    let (variable, truth) = unset(names, store, name)?;
    expect(tokens, Mark::Equal)?;
    let value = typed_value(truth, tokens)?;
    expect(tokens, Mark::Semicolon)?;
    set(store, variable, value);
    Ok(())
}

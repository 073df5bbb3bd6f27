//! The components at whose locations an equation has coefficients, and the numbers that each may add.

ghost use Rattle.std.specs.Prelude.{◌≡◌, IfOk, slice_index_or};
ghost use Rattle.std.specs.List.{list_any};
ghost use Rattle.std.specs.Ordering.{int_eq};
ghost use Rattle.equation_forms.specs.Formulas.{terms_of, groups, classes};
ghost use Rattle.equation_writer.specs.Plain.{plain_terms};

use st_memory::Memory;
use std::alloc::Global;

/// Coefficients of locations.
pub(crate) type Terms = Vec<(u32, i128)>;

/// The component whose own location it is.
fn owner(owners: &[u32], location: u32) -> u32
    ensures { result ≡ slice_index_or owners.now location 0 }
{
    match owners.get(location as usize) {
        Some(component) => *component,
        None => 0,
    }
}

/// The coefficients of a component's own locations.
fn terms_of(
    alloc: Global,
    owners: &[u32],
    component: u32,
    places: &[(u32, i128)],
) -> Result<Terms, Memory>
    ensures { IfOk result (λ v. v.items ≡ terms_of owners.now component places.now) }
{
    let mut out = Vec::new(alloc);
    for t in places {
        if component == owner(owners, t.0) {
            out.push(*t)?;
        }
    }
    Ok(out)
}

/// Those of each of so many components that has any.
pub(crate) fn groups(
    alloc: Global,
    owners: &[u32],
    components: u32,
    places: &[(u32, i128)],
) -> Result<Vec<Terms>, Memory>
    ensures { IfOk result (λ v. plain_terms v.items ≡ groups owners.now places.now components 0) }
{
    let mut out = Vec::new(alloc);
    for component in 0..components {
        let terms = terms_of(alloc, owners, component, places)?;
        if terms.is_empty() {
            continue;
        }
        out.push(terms)?;
    }
    Ok(out)
}

/// Whether a number is among those that were seen.
fn is_seen(seen: &[i128], number: &i128) -> bool
    ensures { result ≡ list_any (λ k. int_eq k number.now) seen.now }
{
    for k in seen {
        if *k == *number {
            return true;
        }
    }
    false
}

/// What a component may add: 0, and its coefficients in the order of their first locations.
pub(crate) fn classes(alloc: Global, terms: &[(u32, i128)]) -> Result<Vec<i128>, Memory>
    ensures { IfOk result (λ v. v.items ≡ classes terms.now) }
{
    let mut out = Vec::new(alloc);
    out.push(0)?;
    for t in terms {
        if !is_seen(&out, &t.1) {
            out.push(t.1)?;
        }
    }
    Ok(out)
}

//! The component that is decided next for a location: the outermost undecided one among its component and those around it.

ghost use Rattle.std.specs.Prelude.{◌≡◌, length, None, slice_index_or};
ghost use Rattle.search_laws.specs.Moves.{or_else, if_undecided, outermost, component_for};

use control_states::{Alternative, Component, Components, around_at};

fn or_else(first: Option<u32>, otherwise: Option<u32>) -> Option<u32>
    ensures { result ≡ or_else first otherwise }
{
    match first {
        Some(x) => Some(x),
        None => otherwise,
    }
}

/// The component, where it is undecided.
fn if_undecided(cases: &[Option<Alternative>], component: u32) -> Option<u32>
    ensures { result ≡ if_undecided component (slice_index_or cases.now component None) }
{
    match cases.get(component as usize) {
        Some(Some(_)) => None,
        Some(None) => Some(component),
        None => Some(component),
    }
}

/// The outermost undecided one among a component and those around it.
fn outermost(parts: &[Component], cases: &[Option<Alternative>], component: u32) -> Option<u32>
    ensures { result ≡ outermost parts.now cases.now (length parts.now) component }
{
    let mut best = None;
    let mut inner = component;
    let mut left = parts.len();
    while left > 0 {
        left -= 1;
        best = or_else(if_undecided(cases, inner), best);
        match around_at(parts, inner) {
            None => return best,
            Some(way) => {
                inner = way.0;
            }
        }
    }
    best
}

/// The component that is decided next for a location.
pub fn component_for(
    components: &Components,
    cases: &[Option<Alternative>],
    location: u32,
) -> Option<u32>
    ensures { result ≡ component_for components.now cases.now location }
{
    match components.owners().get(location as usize) {
        Some(owner) => outermost(components.parts(), cases, *owner),
        None => None,
    }
}

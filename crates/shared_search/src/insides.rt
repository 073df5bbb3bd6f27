//! Which components have others inside.

ghost use Rattle.std.specs.Prelude.{◌≡◌, IfOk};
ghost use Rattle.std.specs.List.{list_any};
ghost use Rattle.sharing_laws.specs.Contexts.{has_inside, is_around};
ghost use Rattle.shared_search.specs.Contexts.{AreInside};

use control_states::{Component, Components};
use st_memory::Memory;
use std::alloc::Global;

fn is_around(component: u32, around: Option<(u32, u32)>) -> bool
    ensures { result ≡ is_around component around }
{
    match around {
        None => false,
        Some(way) => way.0 == component,
    }
}

/// Whether a component has others inside.
fn has_inside(parts: &[Component], component: u32) -> bool
    ensures { result ≡ list_any (λ x. is_around component x.around) parts.now }
{
    for part in parts {
        if is_around(component, part.around()) {
            return true;
        }
    }
    false
}

/// Of each component, whether it has others inside.
pub fn all_insides(alloc: Global, components: &Components) -> Result<Vec<bool>, Memory>
    ensures { IfOk result (λ v. AreInside components.now v.items) }
{
    let mut out = Vec::new(alloc);
    for component in 0..components.count() {
        let inside = has_inside(components.parts(), component);
        out.push(inside)?;
    }
    Ok(out)
}

//! The components of a program.

ghost use Rattle.std.specs.Prelude.{◌≡◌, ◌<◌, ◌^◌, ℕ, length, IfOk, slice_index_or, slice_get, Some};
ghost use Rattle.control_states.specs.Control.{component_at};
ghost use Rattle.control_states.specs.Place.{place, AreRight};

use crate::alternative::Alternative;
use crate::component::Component;
use crate::places::{alternatives_at, around_at, places_of};
use st_memory::Memory;
use std::alloc::Global;
use std::marker::Model;

/// The components in text order, a process before the children in it, and of each location the component whose own it
/// is.
#[derive(Drop)]
pub struct Components {
    parts: Vec<Component>,
    owners: Vec<u32>,
}

impl Model for Components {
    ghost use Rattle.control_states.specs.Control.{ControlFacts};

    ghost Value = { ControlFacts };

    ghost view = { λ a. record { components = a.parts.items; owners = a.owners.items } };

    ghost use Rattle.std.specs.Prelude.{◌<◌, ◌^◌, length};

    ghost invariant = { λ a. length a.parts.items < 2 ^ 32 };
}

impl Components {
    /// The components in text order, and for each location in order the component whose own it is.
    pub fn new(parts: Vec<Component>, owners: Vec<u32>) -> Components
        requires { length parts.items < 2 ^ 32 }
        ensures { result ≡ record { components = parts.items; owners = owners.items } }
    {
        Components { parts, owners }
    }

    /// The number of components.
    pub fn count(&self) -> u32
        ensures { result ≡ length self.now.components }
    {
        self.parts.len() as u32
    }

    /// The components in order.
    pub fn parts(&self) -> &[Component]
        ensures { result.now ≡ self.now.components }
    {
        self.parts.as_slice()
    }

    /// Of each location the component whose own it is.
    pub fn owners(&self) -> &[u32]
        ensures { result.now ≡ self.now.owners }
    {
        self.owners.as_slice()
    }

    /// What component `c` can be at, in text order; nothing where there is no such component.
    pub fn alternatives(&self, c: u32) -> &[Alternative]
        ensures { result.now ≡ (component_at self.now.components c).alternatives }
    {
        alternatives_at(self.parts(), c)
    }

    /// The component around a child and the occurrence of its cooperation; `None` for a process.
    pub fn around(&self, c: u32) -> Option<(u32, u32)>
        ensures { result ≡ (component_at self.now.components c).around }
    {
        around_at(self.parts(), c)
    }

    /// The component whose own location it is.
    pub fn of(&self, location: u32) -> u32
        requires { location < length self.now.owners }
        ensures { slice_get self.now.owners location ≡ Some result }
    {
        self.owners()[location as usize]
    }

    /// What decisions of components say of being at each location, by its number: `None` where nothing is decided.
    pub fn places(
        &self,
        alloc: Global,
        cases: &[Option<Alternative>],
    ) -> Result<Vec<Option<bool>>, Memory>
        ensures exact { IfOk result (λ v. (l : ℕ) → slice_index_or v.items l None ≡ place self.now cases.now l) }
        ensures right { IfOk result (λ v. AreRight self.now cases.now v.items) }
    {
        places_of(alloc, self.parts(), self.owners(), cases)
    }
}

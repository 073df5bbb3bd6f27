//! Transition systems.

use crate::transitions::{Transition, find_among};
use st_form::{Form, TransName};
use std::marker::Model;

/// A fair transition system: how many locations it has, whether each variable is boolean, what holds at the beginning,
/// and its transitions in order.
///
/// Names are distinct, numbers in range, and variables used by their types. Transitions, and the modes of each, are numbered by
/// 32 bits. There are at most 64 variables. Entries are
/// below 2^32 in the initial condition, below 2^69 in guards and in truth values of changes, and at most 2^30 in numbers of
/// changes, whose variables rise.
#[derive(Drop)]
pub struct Fts {
    pub locations: u32,
    pub truths: Vec<bool>,
    pub initial: Form,
    pub transitions: Vec<Transition>,
}

impl Model for Fts {
    ghost use Rattle.transition_system.specs.Plain.{View, view_code, plain_system};
    ghost use Rattle.transition_system.specs.Bounds.{IsSystem};

    ghost Value = { View };

    ghost coded = { view_code };

    ghost view = { λ s. record {
      locations = s.locations;
      truths = s.truths.items;
      initial = s.initial;
      transitions = s.transitions.items;
    } };

    ghost invariant = { λ s. IsSystem (plain_system (record {
      locations = s.locations;
      truths = s.truths.items;
      initial = s.initial;
      transitions = s.transitions.items;
    })) };
}

impl Fts {
    ghost use Rattle.std.specs.Prelude.{◌≡◌, ◌≢◌, ℕ, IfSome, None, Some, slice_get};
    ghost use Rattle.transition_system.specs.Meaning.{IsNamed, HasNoName};
    ghost use Rattle.transition_system.specs.Plain.{plain_system};

    /// The number of the transition with this name, or `None` where none has it.
    pub fn find(&self, name: TransName) -> Option<u32>
        ensures found { IfSome result (λ number. IsNamed (plain_system self.now) number name) }
        ensures absent { result ≡ None → HasNoName (plain_system self.now) name }
    {
        find_among(&self.transitions, name)
    }
}

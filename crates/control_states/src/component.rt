//! One component.

ghost use Rattle.std.specs.Prelude.{◌≡◌};

use crate::alternative::Alternative;
use std::marker::Model;

/// A process, or a child of a cooperation.
#[derive(Drop)]
pub struct Component {
    alternatives: Vec<Alternative>,
    around: Option<(u32, u32)>,
}

impl Model for Component {
    ghost use Rattle.control_states.specs.Control.{ComponentFacts};

    ghost Value = { ComponentFacts };

    ghost view = { λ a. record { alternatives = a.alternatives.items; around = a.around } };
}

impl Component {
    /// A component with its alternatives in text order; `around` is the component around a child and the cooperation
    /// between them, and `None` for a process.
    pub fn new(alternatives: Vec<Alternative>, around: Option<(u32, u32)>) -> Component
        ensures { result ≡ record { alternatives = alternatives.items; around = around } }
    {
        Component {
            alternatives,
            around,
        }
    }

    /// What it can be at, in text order.
    pub fn alternatives(&self) -> &[Alternative]
        ensures { result.now ≡ self.now.alternatives }
    {
        self.alternatives.as_slice()
    }

    /// The component around a child, and the occurrence of its cooperation; `None` for a process.
    pub fn around(&self) -> Option<(u32, u32)>
        ensures { result ≡ self.now.around }
    {
        self.around
    }
}

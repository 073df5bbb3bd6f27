//! Diagrams as rules.

use crate::listing::{response_by, waiting_by};
use st_form::Form;
use std::alloc::Global;
use temporal_goals::{Diagram, Goal};
use transition_system::Fts;
use vc_generator::{Asking, Conditions, Rule, VcFault, take_back};

/// A goal with a verification diagram of its kind, and the formulas of the steps that it cites.
#[derive(Drop)]
pub struct Drawn<'a> {
    pub goal: &'a Goal,
    pub diagram: &'a Diagram,
    pub lemmas: &'a [Form],
}

impl Rule for Drawn<'_> {
    ghost use Rattle.std.specs.Prelude.{map};
    ghost use Rattle.st_form.specs.Plain.{plain};
    ghost use Rattle.temporal_goals.specs.Plain.{plain_goal, plain_diagram};
    ghost use Rattle.diagram_conditions.specs.Asked.{Fits, drawn_asks};
    ghost use Rattle.diagram_conditions.specs.Sound.{drawn_sound};

    ghost aim = { λ r. plain_goal r.goal.now };

    ghost cited = { λ r. map plain r.lemmas.now };

    ghost fits = { λ r system. Fits (plain_goal r.goal.now) (plain_diagram r.diagram.now) system };

    ghost asked = { λ r system step. drawn_asks (plain_goal r.goal.now) (plain_diagram r.diagram.now) (map plain r.lemmas.now) system step };

    fn goal(&self) -> &Goal {
        self.goal
    }

    fn conditions(
        &self,
        alloc: Global,
        fts: &Fts,
        step: u32,
        out: &mut Conditions,
    ) -> Result<(), VcFault> {
        let length = out.items.len();
        let weight = out.weight;
        let asking = Asking {
            alloc,
            fts,
            step,
            lemmas: self.lemmas,
        };
        let result = match self.goal {
            Goal::Waiting(p, goals) => waiting_by(&asking, p, goals, self.diagram, out),
            Goal::Response(p, q, bound) => response_by(&asking, p, q, bound, self.diagram, out),
            Goal::Invariant(_) => Ok(()),
        };
        if result.is_err() {
            take_back(out, length, weight);
        }
        result
    }

    ghost sound = { λ rule system step o fits. drawn_sound (plain_goal rule.goal.now) (plain_diagram rule.diagram.now) (map plain rule.lemmas.now) system step o fits.goal_fits };
}

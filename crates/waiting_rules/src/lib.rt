//! Nested waiting-for by a formula for each level (Manna and Pnueli, *Temporal Verification of Reactive Systems: Safety*,
//! rule NWAIT).
#![tactic(auto)]

mod listing;

use crate::listing::waiting;
use st_form::Form;
use std::alloc::Global;
use temporal_goals::Goal;
use transition_system::Fts;
use vc_generator::{Asking, Conditions, Rule, VcFault, take_back};

/// Nested waiting-for, with a formula for each level, the highest first, and the formulas of the steps that it cites.
#[derive(Drop)]
pub struct WaitingFor<'a> {
    pub goal: &'a Goal,
    pub levels: &'a [Form],
    pub lemmas: &'a [Form],
}

impl Rule for WaitingFor<'_> {
    ghost use Rattle.std.specs.Prelude.{map};
    ghost use Rattle.st_form.specs.Plain.{plain};
    ghost use Rattle.temporal_goals.specs.Plain.{plain_goal};
    ghost use Rattle.waiting_rules.specs.Asked.{HasLevels, waiting_asks};
    ghost use Rattle.waiting_rules.specs.Sound.{waiting_sound};

    ghost aim = { λ r. plain_goal r.goal.now };

    ghost cited = { λ r. map plain r.lemmas.now };

    ghost fits = { λ r system. HasLevels (plain_goal r.goal.now) (map plain r.levels.now) };

    ghost asked = { λ r system step. waiting_asks (plain_goal r.goal.now) (map plain r.levels.now) (map plain r.lemmas.now) system step };

    fn goal(&self) -> &Goal {
        self.goal
    }

    fn conditions(
        &self,
        alloc: Global,
        fts: &Fts,
        step: u32,
        out: &mut Conditions,
    ) -> Result<(), VcFault> {
        let length = out.items.len();
        let weight = out.weight;
        let asking = Asking {
            alloc,
            fts,
            step,
            lemmas: self.lemmas,
        };
        let result = match self.goal {
            Goal::Waiting(p, goals) => waiting(&asking, p, goals, self.levels, out),
            Goal::Invariant(..) | Goal::Response(..) => Ok(()),
        };
        if result.is_err() {
            take_back(out, length, weight);
        }
        result
    }

    ghost sound = { λ rule system step o. waiting_sound (plain_goal rule.goal.now) (map plain rule.levels.now) (map plain rule.lemmas.now) system step o };
}

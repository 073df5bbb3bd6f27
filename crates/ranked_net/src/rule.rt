//! The rule.

use crate::listing::push_all;
use st_form::Form;
use std::alloc::Global;
use temporal_goals::{Goal, Net};
use transition_system::Fts;
use vc_generator::{Asking, Conditions, Rule, VcFault, take_back};

/// A response by a ranked net, with the formulas of the steps that it cites.
#[derive(Drop)]
pub struct Ranked<'a> {
    pub goal: &'a Goal,
    pub net: &'a Net,
    pub lemmas: &'a [Form],
}

impl Rule for Ranked<'_> {
    ghost use Rattle.std.specs.Prelude.{map};
    ghost use Rattle.st_form.specs.Plain.{plain};
    ghost use Rattle.temporal_goals.specs.Plain.{plain_goal, plain_net};
    ghost use Rattle.ranked_net.specs.Asked.{RankedFits, ranked_asks};
    ghost use Rattle.ranked_net.specs.Sound.{ranked_sound};

    ghost aim = { λ r. plain_goal r.goal.now };

    ghost cited = { λ r. map plain r.lemmas.now };

    ghost fits = { λ r system. RankedFits (plain_goal r.goal.now) (plain_net r.net.now) system };

    ghost asked = { λ r system step. ranked_asks (plain_goal r.goal.now) (plain_net r.net.now) (map plain r.lemmas.now) system step };

    fn goal(&self) -> &Goal {
        self.goal
    }

    fn conditions(
        &self,
        alloc: Global,
        fts: &Fts,
        step: u32,
        out: &mut Conditions,
    ) -> Result<(), VcFault> {
        let length = out.items.len();
        let weight = out.weight;
        let asking = Asking {
            alloc,
            fts,
            step,
            lemmas: self.lemmas,
        };
        let result = match self.goal {
            Goal::Response(begin, end, bound) => {
                push_all(&asking, begin, end, bound, &self.net.nodes, out)
            }
            Goal::Invariant(..) | Goal::Waiting(..) => Ok(()),
        };
        if result.is_err() {
            take_back(out, length, weight);
        }
        result
    }

    ghost sound = { λ rule system step o. ranked_sound (plain_goal rule.goal.now) (plain_net rule.net.now) (map plain rule.lemmas.now) system step o };
}

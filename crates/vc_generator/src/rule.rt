//! Rules, over plain data.

use crate::conditions::Conditions;
use crate::faults::VcFault;
use std::alloc::Global;
use temporal_goals::Goal;
use transition_system::Fts;

/// A rule for a goal: the conditions that it generates for a system, and the law that they are enough.
///
/// Its meaning is its goal, the formulas of the steps that it cites, whether it fits a system (its goal is of its kind, what it
/// gives for each formula of the goal is there, helpers are just, groups compassionate, and numbers far from the limit of
/// forms), and the list of its conditions. Conditions are generated, and the law holds, whatever variables and locations its
/// formulas name.
pub trait Rule {
    ghost use Rattle.std.specs.Prelude.{◌≡◌, ℕ, List};
    ghost use Rattle.st_form.specs.Formula.{Formula, Situation};
    ghost use Rattle.observations.specs.Observation.{Observation};
    ghost use Rattle.transition_system.specs.Systems.{System};
    ghost use Rattle.transition_system.specs.Plain.{plain_system};
    ghost use Rattle.transition_system.specs.Meaning.{IsRun};
    ghost use Rattle.temporal_goals.specs.Texts.{PlainGoal};
    ghost use Rattle.temporal_goals.specs.Plain.{plain_goal};
    ghost use Rattle.temporal_goals.specs.Meaning.{GoalHolds};
    ghost use Rattle.vc_generator.specs.Building.{Draft};
    ghost use Rattle.vc_generator.specs.Plain.{plain_list};
    ghost use Rattle.vc_generator.specs.Refusing.{AppendsAll};
    ghost use Rattle.vc_generator.specs.Validity.{HoldThroughout, TrueThroughout};

    ghost aim: { Self → PlainGoal };

    ghost cited: { Self → List Formula };

    ghost fits: { Self → System → Type 0 };

    ghost asked: { Self → System → ℕ → List Draft };

    /// The goal.
    fn goal(&self) -> &Goal
        ensures { plain_goal result.now ≡ aim self.now };

    /// Appends the rule's conditions for the system, as those of the step of this number. After a refusal, which comes at
    /// the first condition that may not be appended, the list is as before.
    fn conditions(
        &self,
        alloc: Global,
        fts: &Fts,
        step: u32,
        out: &mut Conditions,
    ) -> Result<(), VcFault>
        requires { fits self.now (plain_system fts.now) }
        ensures { AppendsAll result (plain_list out.old) (plain_list out.new) (asked self.now (plain_system fts.now) step) };

    ghost sound: { (rule : Self) (system : System) (step : ℕ) (o : Observation Situation) →
        fits rule system → IsRun system o →
        HoldThroughout (asked rule system step) o → TrueThroughout (cited rule) o →
        GoalHolds (aim rule) o };
}

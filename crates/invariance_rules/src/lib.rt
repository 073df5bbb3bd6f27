//! Basic invariance, and invariance by a stronger formula (Manna and Pnueli, *Temporal Verification of Reactive Systems:
//! Safety*, rules INV-B and INV).
#![tactic(auto)]

ghost use Rattle.std.specs.Prelude.{◌≡◌, None, map};
ghost use Rattle.std.specs.Option.{option_map};
ghost use Rattle.st_form.specs.Plain.{plain};
ghost use Rattle.vc_generator.specs.Asked.{system_of, lemmas_of};
ghost use Rattle.vc_generator.specs.Plain.{plain_list};
ghost use Rattle.vc_generator.specs.Refusing.{Grows};
ghost use Rattle.rule_laws.specs.Invariance.{kept_always, invariance_list};

use st_form::{Form, Premise};
use std::alloc::Global;
use temporal_goals::Goal;
use transition_system::{Fts, Mode, Transition};
use vc_generator::{
    Asking, Conditions, PerMode, Rule, VcFault, by_mode, each_mode, entails, plainly, start,
    take_back, triple,
};

/// An invariance, perhaps by a stronger formula, with the formulas of the steps that it cites.
#[derive(Drop)]
pub struct Invariance<'a> {
    pub goal: &'a Goal,
    pub stronger: Option<&'a Form>,
    pub lemmas: &'a [Form],
}

/// That each mode keeps a formula.
#[derive(Drop)]
struct Keeping<'a> {
    asking: &'a Asking<'a>,
    form: &'a Form,
}

impl PerMode for Keeping<'_> {
    ghost use Rattle.st_form.specs.Plain.{plain};
    ghost use Rattle.vc_generator.specs.Asked.{lemmas_of};
    ghost use Rattle.invariance_rules.specs.Walk.{keeps};

    ghost asks = { λ r n t k m. keeps r.asking.now.step (lemmas_of r.asking.now) (plain r.form.now) n t k m };

    #[tactic(auto, using(vc_generator::proofs::Growing::appends_one))]
    fn append(
        &self,
        alloc: Global,
        _number: u32,
        transition: &Transition,
        place: u32,
        mode: &Mode,
        out: &mut Conditions,
    ) -> Result<(), VcFault> {
        let asking = self.asking;
        let lemmas = asking.lemmas;
        let form = self.form;
        let name = by_mode(asking.step, Premise::Keep, None, transition.name, place);
        triple(alloc, mode, lemmas, form, form, &Form::False, name, out)
    }
}

/// The formula holds at the start, and each mode keeps it.
fn keep_always(asking: &Asking<'_>, form: &Form, out: &mut Conditions) -> Result<(), VcFault>
    ensures { Grows result (plain_list out.old) (plain_list out.new) (kept_always asking.now.step (system_of asking.now) (lemmas_of asking.now) (plain form.now)) }
{
    let name = plainly(asking.step, Premise::Start, None);
    start(asking.alloc, asking.fts, asking.lemmas, form, name, out)?;
    let keeping = Keeping { asking, form };
    each_mode(asking.alloc, asking.fts, &keeping, out)
}

/// All conditions of the invariance of `form`.
fn invariant(
    asking: &Asking<'_>,
    stronger: Option<&Form>,
    form: &Form,
    out: &mut Conditions,
) -> Result<(), VcFault>
    ensures { Grows result (plain_list out.old) (plain_list out.new) (invariance_list asking.now.step (system_of asking.now) (lemmas_of asking.now) (plain form.now) (option_map (λ f. plain f.now) stronger.entry)) }
{
    match stronger {
        None => keep_always(asking, form, out),
        Some(stronger) => {
            let name = plainly(asking.step, Premise::Implies, None);
            entails(asking.alloc, asking.lemmas, stronger, form, name, out)?;
            keep_always(asking, stronger, out)
        }
    }
}

impl Rule for Invariance<'_> {
    ghost use Rattle.std.specs.Prelude.{map};
    ghost use Rattle.std.specs.Option.{option_map};
    ghost use Rattle.st_form.specs.Plain.{plain};
    ghost use Rattle.temporal_goals.specs.Plain.{plain_goal};
    ghost use Rattle.invariance_rules.specs.Asked.{IsInvariance, invariance_asks};
    ghost use Rattle.invariance_rules.specs.Sound.{invariance_sound};

    ghost aim = { λ r. plain_goal r.goal.now };

    ghost cited = { λ r. map plain r.lemmas.now };

    ghost fits = { λ r system. IsInvariance (plain_goal r.goal.now) };

    ghost asked = { λ r system step. invariance_asks (plain_goal r.goal.now) (option_map (λ f. plain f.now) r.stronger) (map plain r.lemmas.now) system step };

    fn goal(&self) -> &Goal {
        self.goal
    }

    fn conditions(
        &self,
        alloc: Global,
        fts: &Fts,
        step: u32,
        out: &mut Conditions,
    ) -> Result<(), VcFault> {
        let length = out.items.len();
        let weight = out.weight;
        let asking = Asking {
            alloc,
            fts,
            step,
            lemmas: self.lemmas,
        };
        let result = match self.goal {
            Goal::Invariant(form) => invariant(&asking, self.stronger, form, out),
            Goal::Waiting(..) | Goal::Response(..) => Ok(()),
        };
        if result.is_err() {
            take_back(out, length, weight);
        }
        result
    }

    ghost sound = { λ rule system step o. invariance_sound (plain_goal rule.goal.now) (option_map (λ f. plain f.now) rule.stronger) (map plain rule.lemmas.now) system step o };
}

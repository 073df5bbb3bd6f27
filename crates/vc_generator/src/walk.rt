//! Going over the modes of a system.

ghost use Rattle.std.specs.Prelude.{◌<◌, ◌-◌, ◌^◌, map, length};
ghost use Rattle.transition_system.specs.Plain.{plain_mode, plain_transition, plain_system};
ghost use Rattle.transition_system.specs.Systems.{FewModes};
ghost use Rattle.vc_generator.specs.Plain.{plain_list};
ghost use Rattle.vc_generator.specs.Refusing.{Grows};
ghost use Rattle.vc_generator.specs.Walks.{numbered_from, each_mode as each_mode_of};

use crate::conditions::Conditions;
use crate::faults::VcFault;
use std::alloc::Global;
use transition_system::{Fts, Mode, Transition};

/// What a rule asks of each mode: the conditions for the transition of a number, and its mode of a number that counts from 1.
pub trait PerMode {
    ghost use Rattle.std.specs.Prelude.{ℕ, List};
    ghost use Rattle.transition_system.specs.Systems.{PlainMode, PlainTransition};
    ghost use Rattle.transition_system.specs.Plain.{plain_mode, plain_transition};
    ghost use Rattle.vc_generator.specs.Building.{Draft};
    ghost use Rattle.vc_generator.specs.Plain.{plain_list};
    ghost use Rattle.vc_generator.specs.Refusing.{Grows};

    ghost asks: { Self → ℕ → PlainTransition → ℕ → PlainMode → List Draft };

    fn append(
        &self,
        alloc: Global,
        number: u32,
        transition: &Transition,
        place: u32,
        mode: &Mode,
        out: &mut Conditions,
    ) -> Result<(), VcFault>
        ensures { Grows result (plain_list out.old) (plain_list out.new)
            (asks self.now number (plain_transition transition.now) place (plain_mode mode.now)) };
}

/// Appends what the rule asks of each mode, in the order of transitions and modes.
pub fn each_mode<P: PerMode>(
    alloc: Global,
    fts: &Fts,
    rule: &P,
    out: &mut Conditions,
) -> Result<(), VcFault>
    ensures { Grows result (plain_list out.old) (plain_list out.new) (each_mode_of (P.asks rule.now) (plain_system fts.now)) }
{
    each_transition(alloc, &fts.transitions, rule, out)
}

fn each_transition<P: PerMode>(
    alloc: Global,
    transitions: &[Transition],
    rule: &P,
    out: &mut Conditions,
) -> Result<(), VcFault>
    requires few { FewModes (map plain_transition transitions.now) }
    requires counted { length transitions.now < 2 ^ 32 }
    ensures { Grows result (plain_list out.old) (plain_list out.new)
        (numbered_from (λ n t. numbered_from (λ k m. P.asks rule.now n t k m) 1 t.modes) 0 (map plain_transition transitions.now)) }
{
    for index in 0..transitions.len() {
        let transition = &transitions[index];
        each_of(alloc, index as u32, transition, rule, out)?;
    }
    Ok(())
}

fn each_of<P: PerMode>(
    alloc: Global,
    number: u32,
    transition: &Transition,
    rule: &P,
    out: &mut Conditions,
) -> Result<(), VcFault>
    requires { length transition.now.modes.items < 2 ^ 32 - 1 }
    ensures { Grows result (plain_list out.old) (plain_list out.new)
        (numbered_from (λ k m. P.asks rule.now number (plain_transition transition.now) k m) 1 (map plain_mode transition.now.modes.items)) }
{
    for index in 0..transition.modes.len() {
        let mode = &transition.modes[index];
        rule.append(alloc, number, transition, index as u32 + 1, mode, out)?;
    }
    Ok(())
}

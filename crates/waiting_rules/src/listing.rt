//! The conditions of nested waiting-for: that some level's formula holds where the goal's first does, that each level's implies
//! the goal's, and that each mode leads from a level to it or to a lower one.

ghost use Rattle.std.specs.Prelude.{◌≡◌, ◌≤◌, map, length, IfOk};
ghost use Rattle.st_form.specs.Formula.{some, formulas};
ghost use Rattle.st_form.specs.Plain.{plain};
ghost use Rattle.vc_generator.specs.Asked.{system_of, lemmas_of};
ghost use Rattle.vc_generator.specs.Plain.{plain_list};
ghost use Rattle.vc_generator.specs.Refusing.{Grows};
ghost use Rattle.vc_generator.specs.Walks.{each_mode as each_mode_of};
ghost use Rattle.rule_laws.specs.WaitingFor.{level_list, move_list, waiting_list};
ghost use Rattle.waiting_rules.specs.Walk.{falls};

use st_form::{Form, Premise, copy_all};
use st_memory::Memory;
use std::alloc::Global;
use transition_system::{Mode, Transition};
use vc_generator::{
    Asking, Conditions, PerMode, VcFault, by_mode, each_mode, entails, plainly, triple,
};

/// That each mode leads from a level's formula to it or to a lower one.
#[derive(Drop)]
struct Falling<'a> {
    asking: &'a Asking<'a>,
    node: u32,
    form: &'a Form,
    below: &'a Form,
}

impl PerMode for Falling<'_> {
    ghost use Rattle.st_form.specs.Plain.{plain};
    ghost use Rattle.vc_generator.specs.Asked.{lemmas_of};
    ghost use Rattle.waiting_rules.specs.Walk.{falls};

    ghost asks = { λ r n t k m. falls r.asking.now.step (lemmas_of r.asking.now) r.node (plain r.form.now) (plain r.below.now) n t k m };

    #[tactic(auto, using(vc_generator::proofs::Growing::appends_one))]
    fn append(
        &self,
        alloc: Global,
        _number: u32,
        transition: &Transition,
        place: u32,
        mode: &Mode,
        out: &mut Conditions,
    ) -> Result<(), VcFault> {
        let asking = self.asking;
        let node = Some(self.node);
        let name = by_mode(asking.step, Premise::Move, node, transition.name, place);
        triple(
            alloc,
            mode,
            asking.lemmas,
            self.form,
            self.below,
            &Form::False,
            name,
            out,
        )
    }
}

/// The disjunction of formulas.
#[tactic(auto, using(st_form::proofs::Nodes::nodes))]
fn disjunction(alloc: Global, forms: &[Form]) -> Result<Form, Memory>
    ensures { IfOk result (λ f. plain f ≡ some (formulas (map plain forms.now))) }
{
    Ok(Form::Or(copy_all(alloc, forms)?))
}

/// Each level's formula implies the goal's.
fn levels_imply(
    asking: &Asking<'_>,
    levels: &[Form],
    goals: &[Form],
    out: &mut Conditions,
) -> Result<(), VcFault>
    requires same { length levels.now ≡ length goals.now }
    requires few { length levels.now ≤ 64 }
    ensures { Grows result (plain_list out.old) (plain_list out.new) (level_list asking.now.step (lemmas_of asking.now) (map plain levels.now) (map plain goals.now)) }
{
    for index in 0..levels.len() {
        let node = (levels.len() - 1 - index) as u32;
        let name = plainly(asking.step, Premise::Level, Some(node));
        let level = &levels[index];
        let goal = &goals[index];
        entails(asking.alloc, asking.lemmas, level, goal, name, out)?;
    }
    Ok(())
}

/// Each mode leads from the level's formula to `below`.
fn level_falls(
    asking: &Asking<'_>,
    node: u32,
    form: &Form,
    below: &Form,
    out: &mut Conditions,
) -> Result<(), VcFault>
    ensures { Grows result (plain_list out.old) (plain_list out.new) (each_mode_of (falls asking.now.step (lemmas_of asking.now) node (plain form.now) (plain below.now)) (system_of asking.now)) }
{
    let falling = Falling {
        asking,
        node,
        form,
        below,
    };
    each_mode(asking.alloc, asking.fts, &falling, out)
}

/// Each mode leads from a level above 0 to it or to a lower one.
fn modes_fall(asking: &Asking<'_>, levels: &[Form], out: &mut Conditions) -> Result<(), VcFault>
    requires { length levels.now ≤ 64 }
    ensures { Grows result (plain_list out.old) (plain_list out.new) (move_list asking.now.step (system_of asking.now) (lemmas_of asking.now) (map plain levels.now)) }
{
    for index in 1..levels.len() {
        let below = disjunction(asking.alloc, &levels[index - 1..])?;
        let node = (levels.len() - index) as u32;
        level_falls(asking, node, &levels[index - 1], &below, out)?;
    }
    Ok(())
}

/// All conditions of nested waiting-for.
pub(crate) fn waiting(
    asking: &Asking<'_>,
    p: &Form,
    goals: &[Form],
    levels: &[Form],
    out: &mut Conditions,
) -> Result<(), VcFault>
    requires same { length levels.now ≡ length goals.now }
    requires few { length levels.now ≤ 64 }
    ensures { Grows result (plain_list out.old) (plain_list out.new) (waiting_list asking.now.step (system_of asking.now) (lemmas_of asking.now) (plain p.now) (map plain goals.now) (map plain levels.now)) }
{
    let some = disjunction(asking.alloc, levels)?;
    let cover = plainly(asking.step, Premise::Cover, None);
    entails(asking.alloc, asking.lemmas, p, &some, cover, out)?;
    levels_imply(asking, levels, goals, out)?;
    modes_fall(asking, levels, out)
}

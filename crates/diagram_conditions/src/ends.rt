//! The conditions of a diagram that aren't about one of its nodes, and formulas that its conditions share.

ghost use Rattle.std.specs.Prelude.{◌≡◌, [], ◌∷◌, false, map, Some, None, unwrap_or};
ghost use Rattle.std.specs.Option.{option_map};
ghost use Rattle.st_form.specs.Formula.{truth_value, some, formulas};
ghost use Rattle.st_form.specs.Plain.{plain};
ghost use Rattle.temporal_goals.specs.Plain.{plain_drawn_node, plain_diagram};
ghost use Rattle.vc_generator.specs.Asked.{lemmas_of};
ghost use Rattle.vc_generator.specs.Building.{entails_of};
ghost use Rattle.vc_generator.specs.Plain.{plain_list};
ghost use Rattle.vc_generator.specs.Refusing.{Grows};
ghost use Rattle.vc_generator.specs.Walks.{plainly as plainly_named};
ghost use Rattle.rule_laws.specs.Diagrams.{level_goal as level_goal_of, wait_forms, chain_starts, rank_starts};
ghost use Rattle.rule_fits.specs.Fitting.{CanFall};

use crate::starts::{on_some_link, on_some_node, on_some_rank};
use st_form::{Form, Premise};
use st_linear::Lin;
use temporal_goals::Diagram;
use vc_generator::{Asking, Conditions, VcFault, entails, plainly};

/// The formula of a level, of formulas from the highest level down to level 0; `None` above the highest.
fn level_goal<'a>(goals: &'a [Form], level: u32) -> Option<&'a Form>
    ensures { unwrap_or (option_map (λ f. plain f.now) result) (truth_value false) ≡ level_goal_of level (map plain goals.now) }
{
    let level = level as usize;
    if level < goals.len() {
        Some(&goals[goals.len() - 1 - level])
    } else {
        None
    }
}

/// The goal's first formula implies that the state is on some node of the wait diagram.
#[tactic(auto, using(vc_generator::proofs::Growing::appends_one))]
pub fn covers_waiting(
    asking: &Asking<'_>,
    p: &Form,
    diagram: &Diagram,
    out: &mut Conditions,
) -> Result<(), VcFault>
    ensures { Grows result (plain_list out.old) (plain_list out.new)
        (entails_of (lemmas_of asking.now) (plain p.now) (some (formulas (wait_forms (plain_diagram diagram.now)))) (plainly_named asking.now.step Premise.Cover None) ∷ []) }
{
    let start = on_some_node(asking.alloc, diagram)?;
    let name = plainly(asking.step, Premise::Cover, None);
    entails(asking.alloc, asking.lemmas, p, &start, name, out)
}

/// The same for a chain, with the bound.
#[tactic(auto, using(vc_generator::proofs::Growing::appends_one))]
pub fn covers_chain(
    asking: &Asking<'_>,
    p: &Form,
    bound: &Lin,
    diagram: &Diagram,
    out: &mut Conditions,
) -> Result<(), VcFault>
    ensures { Grows result (plain_list out.old) (plain_list out.new)
        (entails_of (lemmas_of asking.now) (plain p.now)
        (some (formulas (plain diagram.now.terminal ∷ map (chain_starts bound.now) (map plain_drawn_node diagram.now.nodes.items))))
        (plainly_named asking.now.step Premise.Cover None) ∷ []) }
{
    let start = on_some_link(asking.alloc, bound, diagram)?;
    let name = plainly(asking.step, Premise::Cover, None);
    entails(asking.alloc, asking.lemmas, p, &start, name, out)
}

/// The same for a rank diagram, with the bound.
#[tactic(auto, using(vc_generator::proofs::Growing::appends_one))]
pub fn covers_ranks(
    asking: &Asking<'_>,
    p: &Form,
    bound: &Lin,
    diagram: &Diagram,
    out: &mut Conditions,
) -> Result<(), VcFault>
    requires { CanFall bound.now }
    ensures { Grows result (plain_list out.old) (plain_list out.new)
        (entails_of (lemmas_of asking.now) (plain p.now)
        (some (formulas (plain diagram.now.terminal ∷ map (rank_starts bound.now) (map plain_drawn_node diagram.now.nodes.items))))
        (plainly_named asking.now.step Premise.Cover None) ∷ []) }
{
    let start = on_some_rank(asking.alloc, bound, diagram)?;
    let name = plainly(asking.step, Premise::Cover, None);
    entails(asking.alloc, asking.lemmas, p, &start, name, out)
}

/// A node's formula implies the goal's formula of its level.
#[tactic(auto, using(vc_generator::proofs::Growing::appends_one))]
pub fn implies_level(
    asking: &Asking<'_>,
    form: &Form,
    goals: &[Form],
    level: u32,
    out: &mut Conditions,
) -> Result<(), VcFault>
    ensures { Grows result (plain_list out.old) (plain_list out.new)
        (entails_of (lemmas_of asking.now) (plain form.now) (level_goal_of level (map plain goals.now)) (plainly_named asking.now.step Premise.Level (Some level)) ∷ []) }
{
    let none = Form::False;
    let goal = match level_goal(goals, level) {
        Some(goal) => goal,
        None => &none,
    };
    let name = plainly(asking.step, Premise::Level, Some(level));
    entails(asking.alloc, asking.lemmas, form, goal, name, out)
}

/// The terminal node's formula implies the formula that a response leads to.
#[tactic(auto, using(vc_generator::proofs::Growing::appends_one))]
pub fn ends_response(
    asking: &Asking<'_>,
    q: &Form,
    terminal: &Form,
    out: &mut Conditions,
) -> Result<(), VcFault>
    ensures { Grows result (plain_list out.old) (plain_list out.new)
        (entails_of (lemmas_of asking.now) (plain terminal.now) (plain q.now) (plainly_named asking.now.step Premise.Target None) ∷ []) }
{
    let name = plainly(asking.step, Premise::Target, None);
    entails(asking.alloc, asking.lemmas, terminal, q, name, out)
}

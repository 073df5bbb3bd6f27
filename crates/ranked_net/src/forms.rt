//! The formulas that the conditions of a ranked net show, but for those of its steps: that the state is on a node where the
//! response begins, the numbers of a node, and its helpers.

ghost use Rattle.std.specs.Prelude.{◌≡◌, ◌<◌, ◌∷◌, [], IfOk, map};
ghost use Rattle.st_form.specs.Formula.{some, formulas, every};
ghost use Rattle.st_form.specs.Plain.{plain};
ghost use Rattle.st_linear.specs.Simple.{lowered};
ghost use Rattle.temporal_goals.specs.Plain.{plain_node};
ghost use Rattle.vc_generator.specs.Building.{at_least as at_least_of};
ghost use Rattle.vc_generator.specs.Asked.{system_of};
ghost use Rattle.rule_laws.specs.RankedNet.{starts_on as starts_on_of, ranked_form as ranked_form_of, helped_form as helped_form_of};
ghost use Rattle.rule_fits.specs.Fitting.{CanFall};

use crate::fairness::enabled_of;
use st_form::Form;
use st_linear::Lin;
use st_memory::Memory;
use std::alloc::Global;
use temporal_goals::Node;
use vc_generator::Asking;
use vc_generator::numbers::{at_least, at_least_both};

/// The state is on the node, and `below` is at least its top.
fn starts_on(alloc: Global, below: &Lin, node: &Node) -> Result<Form, Memory>
    ensures { IfOk result (λ f. plain f ≡ every (formulas (plain node.now.form ∷ at_least_of below.now node.now.top ∷ []))) }
{
    let form = node.form.copy(alloc)?;
    let top = at_least(alloc, below, &node.top)?;
    Ok(Form::And(vec![in alloc; form, top]?))
}

/// The end is reached, or the state is on a node whose top is below the bound.
pub(crate) fn cover_form(
    alloc: Global,
    end: &Form,
    bound: &Lin,
    nodes: &[Node],
) -> Result<Form, Memory>
    requires { CanFall bound.now }
    ensures { IfOk result (λ f. plain f ≡ some (formulas (plain end.now ∷ map (starts_on_of bound.now) (map plain_node nodes.now)))) }
{
    let below = bound.lowered(alloc)?;
    let mut parts = vec![in alloc; end.copy(alloc)?]?;
    for node in nodes {
        parts.push(starts_on(alloc, &below, node)?)?;
    }
    Ok(Form::Or(parts))
}

/// Base and delay are at least 0, and fit together under the top.
pub(crate) fn ranked_form(alloc: Global, node: &Node) -> Result<Form, Memory>
    ensures { IfOk result (λ f. plain f ≡ ranked_form_of (plain_node node.now)) }
{
    let base = Form::Row(node.base.copy(alloc)?);
    let delay = Form::Row(node.delay.copy(alloc)?);
    let fit = at_least_both(alloc, &node.top, &node.base, &node.delay)?;
    Ok(Form::And(vec![in alloc; base, delay, fit]?))
}

/// The helper or the group is enabled.
pub(crate) fn helped_form(asking: &Asking<'_>, node: &Node) -> Result<Form, Memory>
    ensures { IfOk result (λ f. plain f ≡ helped_form_of (system_of asking.now) (plain_node node.now)) }
{
    let helper = enabled_of(asking.alloc, asking.fts, node.helper)?;
    let group = enabled_of(asking.alloc, asking.fts, node.group)?;
    Ok(Form::Or(vec![in asking.alloc; helper, group]?))
}

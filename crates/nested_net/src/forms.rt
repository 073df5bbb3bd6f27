//! The formulas that the conditions of a nested net show, but for those of its steps: that the state is on a node where the
//! response begins, the numbers of a node, and its helpers.

ghost use Rattle.std.specs.Prelude.{◌≡◌, ◌<◌, ◌++◌, ◌∷◌, [], IfOk, OnOk, map};
ghost use Rattle.st_form.specs.Formula.{some, formulas, every, row};
ghost use Rattle.st_form.specs.Plain.{plain};
ghost use Rattle.temporal_goals.specs.Plain.{plain_level, plain_nested_node};
ghost use Rattle.vc_generator.specs.Building.{at_least as at_least_of, at_least_both as at_least_both_of};
ghost use Rattle.vc_generator.specs.Asked.{system_of};
ghost use Rattle.rule_laws.specs.NestedNet.{top_at as top_at_of, nested_starts, ranked_forms as ranked_forms_of, enabled_groups, nested_helped};
ghost use Rattle.rule_fits.specs.Fitting.{CanFall};

use crate::levels::top_at;
use ranked_net::fairness::enabled_of;
use st_form::Form;
use st_linear::Lin;
use st_memory::Memory;
use std::alloc::Global;
use temporal_goals::{Level, NestedNode};
use vc_generator::Asking;
use vc_generator::numbers::{at_least, at_least_both};

/// The state is on the node, and `below` is at least its outermost top.
fn starts_on(alloc: Global, below: &Lin, node: &NestedNode) -> Result<Form, Memory>
    ensures { IfOk result (λ f. plain f ≡ every (formulas (plain node.now.form ∷ at_least_of below.now (top_at_of 0 (map plain_level node.now.levels.items) node.now.delay) ∷ []))) }
{
    let form = node.form.copy(alloc)?;
    let top = at_least(alloc, below, top_at(0, &node.levels, &node.delay))?;
    Ok(Form::And(vec![in alloc; form, top]?))
}

/// The end is reached, or the state is on a node whose outermost top is below the bound.
pub(crate) fn cover_form(
    alloc: Global,
    end: &Form,
    bound: &Lin,
    nodes: &[NestedNode],
) -> Result<Form, Memory>
    requires { CanFall bound.now }
    ensures { IfOk result (λ f. plain f ≡ some (formulas (plain end.now ∷ map (nested_starts bound.now) (map plain_nested_node nodes.now)))) }
{
    let below = bound.lowered(alloc)?;
    let mut parts = vec![in alloc; end.copy(alloc)?]?;
    for node in nodes {
        parts.push(starts_on(alloc, &below, node)?)?;
    }
    Ok(Form::Or(parts))
}

/// A base is at least 0, and fits under its top with what stands inside.
fn push_ranked(
    alloc: Global,
    level: &Level,
    inner: &Lin,
    forms: &mut Vec<Form>,
) -> Result<(), Memory>
    ensures { OnOk result (map plain forms.new.items ≡ map plain forms.old.items ++ row level.now.base ∷ at_least_both_of level.now.top level.now.base inner.now ∷ []) }
{
    forms.push(Form::Row(level.base.copy(alloc)?))?;
    forms.push(at_least_both(alloc, &level.top, &level.base, inner)?)?;
    Ok(())
}

fn push_row(alloc: Global, form: &Lin, forms: &mut Vec<Form>) -> Result<(), Memory>
    ensures { OnOk result (map plain forms.new.items ≡ map plain forms.old.items ++ row form.now ∷ []) }
{
    forms.push(Form::Row(form.copy(alloc)?))?;
    Ok(())
}

/// Each base is at least 0 and fits under its top with what stands inside; so does the delay.
fn ranked_forms(alloc: Global, levels: &[Level], delay: &Lin) -> Result<Vec<Form>, Memory>
    ensures { IfOk result (λ v. map plain v.items ≡ ranked_forms_of (map plain_level levels.now) delay.now) }
{
    let mut forms = Vec::new(alloc);
    for index in 0..levels.len() {
        let inner = top_at(index + 1, levels, delay);
        push_ranked(alloc, &levels[index], inner, &mut forms)?;
    }
    push_row(alloc, delay, &mut forms)?;
    Ok(forms)
}

pub(crate) fn ranked_form(alloc: Global, node: &NestedNode) -> Result<Form, Memory>
    ensures { IfOk result (λ f. plain f ≡ every (formulas (ranked_forms_of (map plain_level node.now.levels.items) node.now.delay))) }
{
    Ok(Form::And(ranked_forms(alloc, &node.levels, &node.delay)?))
}

/// Where each group is enabled.
fn push_enabled(asking: &Asking<'_>, levels: &[Level], out: &mut Vec<Form>) -> Result<(), Memory>
    ensures { OnOk result (map plain out.new.items ≡ map plain out.old.items ++ enabled_groups (system_of asking.now) (map plain_level levels.now)) }
{
    for level in levels {
        out.push(enabled_of(asking.alloc, asking.fts, Some(level.group))?)?;
    }
    Ok(())
}

/// The helper or a group is enabled.
pub(crate) fn helped_form(asking: &Asking<'_>, node: &NestedNode) -> Result<Form, Memory>
    ensures { IfOk result (λ f. plain f ≡ nested_helped (system_of asking.now) (plain_nested_node node.now)) }
{
    let mut parts = vec![in asking.alloc; enabled_of(asking.alloc, asking.fts, node.helper)?]?;
    push_enabled(asking, &node.levels, &mut parts)?;
    Ok(Form::Or(parts))
}

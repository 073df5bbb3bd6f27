//! The conditions of a goal by each kind of rule. A rule lends what the script says.

ghost use Rattle.std.specs.Prelude.{map};
ghost use Rattle.st_form.specs.Plain.{plain};
ghost use Rattle.temporal_goals.specs.Plain.{plain_goal, plain_net, plain_nested, plain_diagram};
ghost use Rattle.temporal_goals.specs.Texts.{basic, stronger, levels, net, diagram, nested};
ghost use Rattle.vc_generator.specs.Asked.{system_of, lemmas_of};
ghost use Rattle.vc_generator.specs.Plain.{plain_list};
ghost use Rattle.vc_generator.specs.Refusing.{AppendsAll};
ghost use Rattle.script_laws.specs.Script.{step_list};
ghost use Rattle.rule_fits.specs.Obeying.{RuleFits};
ghost use Rattle.script_laws.specs.Written.{GoalWritten, RuleWritten};

use diagram_conditions::Drawn;
use invariance_rules::Invariance;
use nested_net::Nested;
use ranked_net::Ranked;
use st_form::Form;
use temporal_goals::{Diagram, Goal, NestedNet, Net};
use vc_generator::{Asking, Conditions, Rule, VcFault};
use waiting_rules::WaitingFor;

/// An invariance by itself.
pub(crate) fn by_itself<'a>(
    asking: &Asking<'a>,
    goal: &'a Goal,
    out: &mut Conditions,
) -> Result<(), VcFault>
    requires { RuleFits (system_of asking.now) (plain_goal goal.now) basic }
    ensures { AppendsAll result (plain_list out.old) (plain_list out.new)
        (step_list asking.now.step (system_of asking.now) (lemmas_of asking.now) (plain_goal goal.now) basic) }
{
    let rule = Invariance {
        goal,
        stronger: None,
        lemmas: asking.lemmas,
    };
    rule.conditions(asking.alloc, asking.fts, asking.step, out)
}

/// An invariance by a stronger formula.
pub(crate) fn by_stronger(
    asking: &Asking<'_>,
    goal: &Goal,
    form: &Form,
    out: &mut Conditions,
) -> Result<(), VcFault>
    requires { RuleFits (system_of asking.now) (plain_goal goal.now) (stronger (plain form.now)) }
    ensures { AppendsAll result (plain_list out.old) (plain_list out.new)
        (step_list asking.now.step (system_of asking.now) (lemmas_of asking.now) (plain_goal goal.now) (stronger (plain form.now))) }
{
    let rule = Invariance {
        goal,
        stronger: Some(form),
        lemmas: asking.lemmas,
    };
    rule.conditions(asking.alloc, asking.fts, asking.step, out)
}

/// Nested waiting-for by a formula for each level.
pub(crate) fn by_levels(
    asking: &Asking<'_>,
    goal: &Goal,
    forms: &[Form],
    out: &mut Conditions,
) -> Result<(), VcFault>
    requires { RuleFits (system_of asking.now) (plain_goal goal.now) (levels (map plain forms.now)) }
    ensures { AppendsAll result (plain_list out.old) (plain_list out.new)
        (step_list asking.now.step (system_of asking.now) (lemmas_of asking.now) (plain_goal goal.now) (levels (map plain forms.now))) }
{
    let rule = WaitingFor {
        goal,
        levels: forms,
        lemmas: asking.lemmas,
    };
    rule.conditions(asking.alloc, asking.fts, asking.step, out)
}

/// A response by a ranked net.
pub(crate) fn by_net(
    asking: &Asking<'_>,
    goal: &Goal,
    nodes: &Net,
    out: &mut Conditions,
) -> Result<(), VcFault>
    requires fits { RuleFits (system_of asking.now) (plain_goal goal.now) (net (plain_net nodes.now)) }
    requires goal { GoalWritten (system_of asking.now) (plain_goal goal.now) }
    requires rule { RuleWritten (system_of asking.now) (net (plain_net nodes.now)) }
    ensures { AppendsAll result (plain_list out.old) (plain_list out.new)
        (step_list asking.now.step (system_of asking.now) (lemmas_of asking.now) (plain_goal goal.now) (net (plain_net nodes.now))) }
{
    let rule = Ranked {
        goal,
        net: nodes,
        lemmas: asking.lemmas,
    };
    rule.conditions(asking.alloc, asking.fts, asking.step, out)
}

/// A response by a nested net.
pub(crate) fn by_nested(
    asking: &Asking<'_>,
    goal: &Goal,
    nodes: &NestedNet,
    out: &mut Conditions,
) -> Result<(), VcFault>
    requires fits { RuleFits (system_of asking.now) (plain_goal goal.now) (nested (plain_nested nodes.now)) }
    requires goal { GoalWritten (system_of asking.now) (plain_goal goal.now) }
    requires rule { RuleWritten (system_of asking.now) (nested (plain_nested nodes.now)) }
    ensures { AppendsAll result (plain_list out.old) (plain_list out.new)
        (step_list asking.now.step (system_of asking.now) (lemmas_of asking.now) (plain_goal goal.now) (nested (plain_nested nodes.now))) }
{
    let rule = Nested {
        goal,
        net: nodes,
        lemmas: asking.lemmas,
    };
    rule.conditions(asking.alloc, asking.fts, asking.step, out)
}

/// Nested waiting-for or a response by a diagram.
pub(crate) fn by_diagram(
    asking: &Asking<'_>,
    goal: &Goal,
    drawn: &Diagram,
    out: &mut Conditions,
) -> Result<(), VcFault>
    requires fits { RuleFits (system_of asking.now) (plain_goal goal.now) (diagram (plain_diagram drawn.now)) }
    requires goal { GoalWritten (system_of asking.now) (plain_goal goal.now) }
    requires rule { RuleWritten (system_of asking.now) (diagram (plain_diagram drawn.now)) }
    ensures { AppendsAll result (plain_list out.old) (plain_list out.new)
        (step_list asking.now.step (system_of asking.now) (lemmas_of asking.now) (plain_goal goal.now) (diagram (plain_diagram drawn.now))) }
{
    let rule = Drawn {
        goal,
        diagram: drawn,
        lemmas: asking.lemmas,
    };
    rule.conditions(asking.alloc, asking.fts, asking.step, out)
}

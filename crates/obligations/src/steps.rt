//! The conditions of one step.

ghost use Rattle.std.specs.Prelude.{map};
ghost use Rattle.transition_system.specs.Plain.{plain_system};
ghost use Rattle.temporal_goals.specs.Plain.{plain_goal, plain_rule, plain_step};
ghost use Rattle.vc_generator.specs.Plain.{plain_list};
ghost use Rattle.vc_generator.specs.Refusing.{AppendsAll};
ghost use Rattle.script_laws.specs.Script.{cited_of, step_list};
ghost use Rattle.rule_fits.specs.Obeying.{RuleFits};
ghost use Rattle.script_laws.specs.Written.{StepWritten};

use crate::cited::cited_forms;
use crate::rules::{by_diagram, by_itself, by_levels, by_nested, by_net, by_stronger};
use std::alloc::Global;
use temporal_goals::{RuleText, Step};
use transition_system::Fts;
use vc_generator::{Asking, Conditions, VcFault};

/// Appends the conditions of a step behind the earlier ones, by its rule and under the formulas that it cites. After a
/// refusal, which comes at the first condition that may not be appended, the list is as before.
pub(crate) fn append_step(
    alloc: Global,
    fts: &Fts,
    number: u32,
    earlier: &[Step],
    step: &Step,
    out: &mut Conditions,
) -> Result<(), VcFault>
    requires fits { RuleFits (plain_system fts.now) (plain_step step.now).goal (plain_step step.now).rule }
    requires written { StepWritten (plain_system fts.now) (plain_step step.now) }
    ensures { AppendsAll result (plain_list out.old) (plain_list out.new)
        (step_list number (plain_system fts.now) (cited_of (map plain_step earlier.now) step.now.cited.items) (plain_step step.now).goal (plain_step step.now).rule) }
{
    let lemmas = cited_forms(alloc, earlier, &step.cited)?;
    let asking = Asking {
        alloc,
        fts,
        step: number,
        lemmas: &lemmas,
    };
    let goal = &step.goal;
    match &step.rule {
        RuleText::Basic => by_itself(&asking, goal, out),
        RuleText::Stronger(form) => by_stronger(&asking, goal, form, out),
        RuleText::Levels(forms) => by_levels(&asking, goal, forms, out),
        RuleText::Net(net) => by_net(&asking, goal, net, out),
        RuleText::Nested(net) => by_nested(&asking, goal, net, out),
        RuleText::Diagram(diagram) => by_diagram(&asking, goal, diagram, out),
    }
}

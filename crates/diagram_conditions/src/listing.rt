//! The conditions of each kind of diagram, in their order.

ghost use Rattle.std.specs.Prelude.{map};
ghost use Rattle.st_form.specs.Plain.{plain};
ghost use Rattle.temporal_goals.specs.Plain.{plain_diagram};
ghost use Rattle.vc_generator.specs.Asked.{system_of, lemmas_of};
ghost use Rattle.vc_generator.specs.Plain.{plain_list};
ghost use Rattle.vc_generator.specs.Refusing.{Grows};
ghost use Rattle.rule_laws.specs.Diagrams.{wait_list, chain_list, rank_list};
ghost use Rattle.rule_fits.specs.Fitting.{CanFall};
ghost use Rattle.diagram_conditions.specs.Asked.{RanksCanFall, wait_diagram_asks, response_diagram_asks};

use crate::ends::{covers_chain, covers_ranks, covers_waiting, ends_response, implies_level};
use crate::nodes::each_node;
use crate::premises::{Helps, Levels, Ranks, Steps};
use st_form::Form;
use st_linear::Lin;
use temporal_goals::{Diagram, DiagramKind};
use vc_generator::{Asking, Conditions, VcFault};

/// All conditions of nested waiting-for by a wait diagram.
fn waiting(
    asking: &Asking<'_>,
    p: &Form,
    goals: &[Form],
    diagram: &Diagram,
    out: &mut Conditions,
) -> Result<(), VcFault>
    requires { RanksCanFall (plain_diagram diagram.now).nodes }
    ensures { Grows result (plain_list out.old) (plain_list out.new)
        (wait_list asking.now.step (system_of asking.now) (lemmas_of asking.now) (plain p.now) (map plain goals.now) (plain_diagram diagram.now)) }
{
    covers_waiting(asking, p, diagram, out)?;
    let levels = Levels { asking, goals };
    each_node(diagram, &levels, out)?;
    implies_level(asking, &diagram.terminal, goals, 0, out)?;
    let kind = DiagramKind::Wait;
    let steps = Steps {
        asking,
        kind,
        diagram,
    };
    each_node(diagram, &steps, out)
}

/// All conditions of a response by a chain diagram.
fn chain(
    asking: &Asking<'_>,
    p: &Form,
    q: &Form,
    bound: &Lin,
    diagram: &Diagram,
    out: &mut Conditions,
) -> Result<(), VcFault>
    requires { RanksCanFall (plain_diagram diagram.now).nodes }
    ensures { Grows result (plain_list out.old) (plain_list out.new)
        (chain_list asking.now.step (system_of asking.now) (lemmas_of asking.now) (plain p.now) (plain q.now) bound.now (plain_diagram diagram.now)) }
{
    ends_response(asking, q, &diagram.terminal, out)?;
    covers_chain(asking, p, bound, diagram, out)?;
    let helps = Helps { asking };
    each_node(diagram, &helps, out)?;
    let kind = DiagramKind::Chain;
    let steps = Steps {
        asking,
        kind,
        diagram,
    };
    each_node(diagram, &steps, out)
}

/// All conditions of a response by a rank diagram.
fn ranked(
    asking: &Asking<'_>,
    p: &Form,
    q: &Form,
    bound: &Lin,
    diagram: &Diagram,
    out: &mut Conditions,
) -> Result<(), VcFault>
    requires bound { CanFall bound.now }
    requires ranks { RanksCanFall (plain_diagram diagram.now).nodes }
    ensures { Grows result (plain_list out.old) (plain_list out.new)
        (rank_list asking.now.step (system_of asking.now) (lemmas_of asking.now) (plain p.now) (plain q.now) bound.now (plain_diagram diagram.now)) }
{
    ends_response(asking, q, &diagram.terminal, out)?;
    covers_ranks(asking, p, bound, diagram, out)?;
    let ranks = Ranks { asking };
    each_node(diagram, &ranks, out)?;
    let helps = Helps { asking };
    each_node(diagram, &helps, out)?;
    let kind = DiagramKind::Rank;
    let steps = Steps {
        asking,
        kind,
        diagram,
    };
    each_node(diagram, &steps, out)
}

/// All conditions of nested waiting-for by a diagram, which are none unless it is a wait diagram.
pub(crate) fn waiting_by(
    asking: &Asking<'_>,
    p: &Form,
    goals: &[Form],
    diagram: &Diagram,
    out: &mut Conditions,
) -> Result<(), VcFault>
    requires { RanksCanFall (plain_diagram diagram.now).nodes }
    ensures { Grows result (plain_list out.old) (plain_list out.new)
        (wait_diagram_asks diagram.now.kind asking.now.step (system_of asking.now) (lemmas_of asking.now) (plain p.now) (map plain goals.now) (plain_diagram diagram.now)) }
{
    match diagram.kind {
        DiagramKind::Wait => waiting(asking, p, goals, diagram, out),
        DiagramKind::Chain | DiagramKind::Rank => Ok(()),
    }
}

/// All conditions of a response by a diagram, which are none where it is a wait diagram.
pub(crate) fn response_by(
    asking: &Asking<'_>,
    p: &Form,
    q: &Form,
    bound: &Lin,
    diagram: &Diagram,
    out: &mut Conditions,
) -> Result<(), VcFault>
    requires bound { CanFall bound.now }
    requires ranks { RanksCanFall (plain_diagram diagram.now).nodes }
    ensures { Grows result (plain_list out.old) (plain_list out.new)
        (response_diagram_asks diagram.now.kind asking.now.step (system_of asking.now) (lemmas_of asking.now) (plain p.now) (plain q.now) bound.now (plain_diagram diagram.now)) }
{
    match diagram.kind {
        DiagramKind::Wait => Ok(()),
        DiagramKind::Chain => chain(asking, p, q, bound, diagram, out),
        DiagramKind::Rank => ranked(asking, p, q, bound, diagram, out),
    }
}

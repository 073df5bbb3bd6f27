//! Going over the nodes of a diagram.

ghost use Rattle.temporal_goals.specs.Plain.{plain_diagram};
ghost use Rattle.vc_generator.specs.Plain.{plain_list};
ghost use Rattle.vc_generator.specs.Refusing.{Grows};
ghost use Rattle.rule_laws.specs.Diagrams.{each_node as each_node_of};
ghost use Rattle.diagram_conditions.specs.Asked.{RanksCanFall};

use temporal_goals::{Diagram, DiagramNode};
use vc_generator::{Conditions, VcFault};

/// What a diagram asks of each node: its conditions.
pub trait PerNode {
    ghost use Rattle.std.specs.Prelude.{List};
    ghost use Rattle.temporal_goals.specs.Texts.{PlainDrawnNode};
    ghost use Rattle.temporal_goals.specs.Plain.{plain_drawn_node};
    ghost use Rattle.vc_generator.specs.Building.{Draft};
    ghost use Rattle.vc_generator.specs.Plain.{plain_list};
    ghost use Rattle.vc_generator.specs.Refusing.{Grows};
    ghost use Rattle.rule_laws.specs.Diagrams.{drawn_rank};
    ghost use Rattle.rule_fits.specs.Fitting.{CanFall};

    ghost asks: { Self → PlainDrawnNode → List Draft };

    fn append(&self, node: &DiagramNode, out: &mut Conditions) -> Result<(), VcFault>
        requires { CanFall (drawn_rank (plain_drawn_node node.now)) }
        ensures { Grows result (plain_list out.old) (plain_list out.new) (asks self.now (plain_drawn_node node.now)) };
}

/// Appends what is asked of each node, in order.
pub fn each_node<P: PerNode>(
    diagram: &Diagram,
    rule: &P,
    out: &mut Conditions,
) -> Result<(), VcFault>
    requires { RanksCanFall (plain_diagram diagram.now).nodes }
    ensures { Grows result (plain_list out.old) (plain_list out.new) (each_node_of (P.asks rule.now) (plain_diagram diagram.now).nodes) }
{
    for index in 0..diagram.nodes.len() {
        let node = &diagram.nodes[index];
        rule.append(node, out)?;
    }
    Ok(())
}

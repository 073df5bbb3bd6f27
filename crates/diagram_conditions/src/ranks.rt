//! Ranks of nodes, and numbers of nodes as linear forms.

ghost use Rattle.std.specs.Prelude.{◌≡◌, IfOk, pos};
ghost use Rattle.st_linear.specs.Linear.{number as number_of};
ghost use Rattle.temporal_goals.specs.Plain.{plain_drawn_node};
ghost use Rattle.rule_laws.specs.Diagrams.{drawn_rank};

use st_linear::{Lin, LinFault};
use st_memory::Memory;
use std::alloc::Global;
use temporal_goals::DiagramNode;

/// The number as a linear form.
pub fn number(alloc: Global, value: u32) -> Result<Lin, Memory>
    ensures { IfOk result (λ f. f ≡ number_of (pos value)) }
{
    match Lin::constant_of(alloc, i128::from(value)) {
        Ok(form) => Ok(form),
        Err(LinFault::Memory) => Err(Memory),
        Err(LinFault::TooLarge) => unreachable!(),
    }
}

/// The rank of the node; 0 where it has none.
pub fn rank(alloc: Global, node: &DiagramNode) -> Result<Lin, Memory>
    ensures { IfOk result (λ f. f ≡ drawn_rank (plain_drawn_node node.now)) }
{
    match &node.rank {
        Some(rank) => Ok(rank.copy(alloc)?),
        None => number(alloc, 0),
    }
}

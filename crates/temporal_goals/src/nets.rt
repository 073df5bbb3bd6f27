//! Ranked nets: the general rule for response.

ghost use Rattle.std.specs.Prelude.{◌≡◌, IfOk, map};
ghost use Rattle.temporal_goals.specs.Plain.{plain_node, plain_net};

use st_form::Form;
use st_linear::Lin;
use st_memory::Memory;
use std::alloc::Global;

/// A node of a net: its assertion, its base, delay and top, perhaps a group (a compassionate transition) and perhaps a
/// helper (a just transition), both by their numbers in the system.
#[derive(Drop)]
pub struct Node {
    pub form: Form,
    pub base: Lin,
    pub delay: Lin,
    pub top: Lin,
    pub group: Option<u32>,
    pub helper: Option<u32>,
}

/// A ranked net.
#[derive(Drop)]
pub struct Net {
    pub nodes: Vec<Node>,
}

impl Node {
    /// An equal node.
    pub fn copy(&self, alloc: Global) -> Result<Node, Memory>
        ensures { IfOk result (λ n. plain_node n ≡ plain_node self.now) }
    {
        Ok(Node {
            form: self.form.copy(alloc)?,
            base: self.base.copy(alloc)?,
            delay: self.delay.copy(alloc)?,
            top: self.top.copy(alloc)?,
            group: self.group,
            helper: self.helper,
        })
    }
}

impl Net {
    /// An equal net.
    pub fn copy(&self, alloc: Global) -> Result<Net, Memory>
        ensures { IfOk result (λ n. plain_net n ≡ plain_net self.now) }
    {
        let mut nodes = Vec::with_capacity(alloc, self.nodes.len())?;
        for node in &self.nodes {
            nodes.push(node.copy(alloc)?)?;
        }
        Ok(Net { nodes })
    }
}

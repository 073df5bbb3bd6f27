//! Nested nets: response under compassion within compassion.

ghost use Rattle.std.specs.Prelude.{◌≡◌, IfOk, map};
ghost use Rattle.temporal_goals.specs.Plain.{plain_level, plain_nested_node, plain_nested};

use st_form::Form;
use st_linear::Lin;
use st_memory::Memory;
use std::alloc::Global;

/// A group of a node, with its base and its top.
#[derive(Drop)]
pub struct Level {
    pub base: Lin,
    pub top: Lin,
    pub group: u32,
}

/// A node: its assertion, its groups from the outermost on, its delay, and perhaps a helper.
#[derive(Drop)]
pub struct NestedNode {
    pub form: Form,
    pub levels: Vec<Level>,
    pub delay: Lin,
    pub helper: Option<u32>,
}

/// A nested net.
#[derive(Drop)]
pub struct NestedNet {
    pub nodes: Vec<NestedNode>,
}

impl Level {
    /// An equal level.
    pub fn copy(&self, alloc: Global) -> Result<Level, Memory>
        ensures { IfOk result (λ l. plain_level l ≡ plain_level self.now) }
    {
        Ok(Level {
            base: self.base.copy(alloc)?,
            top: self.top.copy(alloc)?,
            group: self.group,
        })
    }
}

fn copy_levels(alloc: Global, levels: &[Level]) -> Result<Vec<Level>, Memory>
    ensures { IfOk result (λ v. map plain_level v.items ≡ map plain_level levels.now) }
{
    let mut out = Vec::with_capacity(alloc, levels.len())?;
    for level in levels {
        out.push(level.copy(alloc)?)?;
    }
    Ok(out)
}

impl NestedNode {
    /// An equal node.
    pub fn copy(&self, alloc: Global) -> Result<NestedNode, Memory>
        ensures { IfOk result (λ n. plain_nested_node n ≡ plain_nested_node self.now) }
    {
        Ok(NestedNode {
            form: self.form.copy(alloc)?,
            levels: copy_levels(alloc, &self.levels)?,
            delay: self.delay.copy(alloc)?,
            helper: self.helper,
        })
    }
}

impl NestedNet {
    /// An equal net.
    pub fn copy(&self, alloc: Global) -> Result<NestedNet, Memory>
        ensures { IfOk result (λ n. plain_nested n ≡ plain_nested self.now) }
    {
        let mut nodes = Vec::with_capacity(alloc, self.nodes.len())?;
        for node in &self.nodes {
            nodes.push(node.copy(alloc)?)?;
        }
        Ok(NestedNet { nodes })
    }
}

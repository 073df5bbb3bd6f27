//! What a rule for a response or a waiting-for is made of, whatever form it is written in: its items with their formulas, numbers
//! and helpers.

use st_form::{Form, Lin};
use st_memory::Memory;
use std::alloc::Global;
use temporal_goals::{Diagram, DiagramNode, NestedNet, NestedNode, Net, Node, RuleText};

/// An item of a rule: its number as reports print it, its formula, its measure when one comes to it, what is left of it when one
/// leaves it, the transition that helps there, and the compassionate one that it waits for.
#[derive(Clone, Copy)]
pub(crate) struct RuleItem<'a> {
    pub number: u64,
    pub form: &'a Form,
    pub top: Option<&'a Lin>,
    pub base: Option<&'a Lin>,
    pub helper: Option<u32>,
    pub group: Option<u32>,
}

fn of_node(number: u64, node: &Node) -> RuleItem<'_> {
    RuleItem {
        number,
        form: &node.form,
        top: Some(&node.top),
        base: Some(&node.base),
        helper: node.helper,
        group: node.group,
    }
}

fn of_nested(number: u64, node: &NestedNode) -> RuleItem<'_> {
    let level = node.levels.first();
    RuleItem {
        number,
        form: &node.form,
        top: Some(level.map_or(&node.delay, |level| &level.top)),
        base: Some(level.map_or(&node.delay, |level| &level.base)),
        helper: node.helper,
        group: level.map(|level| level.group),
    }
}

fn of_drawn(node: &DiagramNode) -> RuleItem<'_> {
    RuleItem {
        number: u64::from(node.number),
        form: &node.form,
        top: node.rank.as_ref(),
        base: node.rank.as_ref(),
        helper: node.helper,
        group: None,
    }
}

fn net_items<'a>(alloc: Global, net: &'a Net) -> Result<Vec<RuleItem<'a>>, Memory> {
    let mut out = Vec::new(alloc);
    for (place, node) in net.nodes.iter().enumerate() {
        out.push(of_node((place as u64).saturating_add(1), node))?;
    }
    Ok(out)
}

fn nested_items<'a>(alloc: Global, net: &'a NestedNet) -> Result<Vec<RuleItem<'a>>, Memory> {
    let mut out = Vec::new(alloc);
    for (place, node) in net.nodes.iter().enumerate() {
        out.push(of_nested((place as u64).saturating_add(1), node))?;
    }
    Ok(out)
}

fn drawn_items<'a>(alloc: Global, diagram: &'a Diagram) -> Result<Vec<RuleItem<'a>>, Memory> {
    let mut out = Vec::new(alloc);
    for node in &diagram.nodes {
        out.push(of_drawn(node))?;
    }
    Ok(out)
}

/// Levels are listed from the highest on, and the last is level 0.
fn level_items<'a>(alloc: Global, levels: &'a [Form]) -> Result<Vec<RuleItem<'a>>, Memory> {
    let mut out = Vec::new(alloc);
    for (place, form) in levels.iter().enumerate() {
        let behind = levels.len().saturating_sub(place).saturating_sub(1);
        out.push(RuleItem {
            number: behind as u64,
            form,
            top: None,
            base: None,
            helper: None,
            group: None,
        })?;
    }
    Ok(out)
}

/// The items of a rule, in text order; an invariance has none.
pub(crate) fn items_of<'a>(alloc: Global, rule: &'a RuleText) -> Result<Vec<RuleItem<'a>>, Memory> {
    match rule {
        RuleText::Basic => Ok(Vec::new(alloc)),
        RuleText::Stronger(_) => Ok(Vec::new(alloc)),
        RuleText::Levels(levels) => level_items(alloc, levels),
        RuleText::Net(net) => net_items(alloc, net),
        RuleText::Diagram(diagram) => drawn_items(alloc, diagram),
        RuleText::Nested(net) => nested_items(alloc, net),
    }
}

/// The number of the item that a condition is of, as reports print it: nodes of nets count from 1; levels, and nodes of diagrams,
/// have numbers of their own.
pub(crate) fn item_number(rule: &RuleText, node: u32) -> u64 {
    match rule {
        RuleText::Net(_) => u64::from(node).saturating_add(1),
        RuleText::Nested(_) => u64::from(node).saturating_add(1),
        RuleText::Basic | RuleText::Stronger(_) => u64::from(node),
        RuleText::Levels(_) | RuleText::Diagram(_) => u64::from(node),
    }
}

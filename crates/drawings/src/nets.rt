//! Nets: the items of a response in the order of the proof, each with its measures and its helper, and framed by the compassionate
//! transition that it waits for. A line leads from each item to the next, and from the last to the goal: it shows the order, and the
//! rule allows more steps than these. Where the items are a chain, whose ranks fall by one from each to the next, lines are double and
//! named by what helps, as in a chain diagram.

use crate::graph::{Cluster, Graph, Line, Shape};
use crate::labels::{assertion_label, transition_label};
use formula_words::{Vocabulary, formula, sum};
use indexmap::IndexMap;
use st_form::Form;
use st_memory::Memory;
use std::alloc::Global;
use std::fmt::Write;
use temporal_goals::{NestedNode, Node};
use transition_system::Fts;

/// What an item of a net says: its assertion, its measures, the transition that it waits for, and its helper.
#[derive(Drop)]
pub(crate) struct Item {
    assertion: String,
    measures: String,
    group: Option<u32>,
    helper: Option<u32>,
}

/// The measures of an item: one rank where the delay is 0 and the top is the base.
fn measures(alloc: Global, words: &Vocabulary, node: &Node) -> Result<String, Memory> {
    let base = sum(alloc, words, &node.base)?;
    let delay = sum(alloc, words, &node.delay)?;
    let top = sum(alloc, words, &node.top)?;
    if delay.as_str() == "0" && base == top {
        return Ok(format!(in alloc; "rank {base}")?);
    }
    Ok(format!(in alloc; "base {base}, delay {delay}, top {top}")?)
}

/// An item of a ranked net.
pub(crate) fn ranked_item(alloc: Global, words: &Vocabulary, node: &Node) -> Result<Item, Memory> {
    Ok(Item {
        assertion: formula(alloc, words, &node.form)?,
        measures: measures(alloc, words, node)?,
        group: node.group,
        helper: node.helper,
    })
}

/// The measures of a node of a nested net, from the outermost group inward.
fn nested_measures(
    alloc: Global,
    words: &Vocabulary,
    system: &Fts,
    node: &NestedNode,
) -> Result<String, Memory> {
    let mut out = String::new(alloc);
    for level in &node.levels {
        let base = sum(alloc, words, &level.base)?;
        let top = sum(alloc, words, &level.top)?;
        let group = transition_label(alloc, words, system, level.group)?;
        write!(out, "base {base}, top {top}, group {group}\n")?;
    }
    write!(out, "delay {}", sum(alloc, words, &node.delay)?)?;
    Ok(out)
}

/// An item of a nested net. Its frame is that of its outermost group.
pub(crate) fn nested_item(
    alloc: Global,
    words: &Vocabulary,
    system: &Fts,
    node: &NestedNode,
) -> Result<Item, Memory> {
    let group = match node.levels.first() {
        Some(level) => Some(level.group),
        None => None,
    };
    Ok(Item {
        assertion: formula(alloc, words, &node.form)?,
        measures: nested_measures(alloc, words, system, node)?,
        group,
        helper: node.helper,
    })
}

/// The nodes of each transition that is waited for, in the order of the items.
type Frames = IndexMap<u32, Vec<usize>>;

fn frame(
    alloc: Global,
    frames: &mut Frames,
    group: Option<u32>,
    node: usize,
) -> Result<(), Memory> {
    let Some(group) = group else {
        return Ok(());
    };
    match frames.get_mut(&group) {
        Some(nodes) => nodes.push(node)?,
        None => {
            frames.insert(group, vec![in alloc; node]?)?;
        }
    }
    Ok(())
}

/// Adds the frames of the transitions that are waited for.
fn add_frames(
    alloc: Global,
    graph: &mut Graph,
    words: &Vocabulary,
    system: &Fts,
    frames: Frames,
) -> Result<(), Memory> {
    for (group, nodes) in frames {
        let name = transition_label(alloc, words, system, group)?;
        graph.clusters.push(Cluster {
            label: format!(in alloc; "waits for {name}")?,
            depth: 0,
            nodes,
        })?;
    }
    Ok(())
}

/// Whether ranks fall by one from each item to the next, down to 0.
fn is_chain(alloc: Global, items: &[Item]) -> Result<bool, Memory> {
    let mut falls = true;
    for (place, item) in items.iter().enumerate() {
        let below = items.len().saturating_sub(place).saturating_sub(1);
        let rank = format!(in alloc; "rank {below}")?;
        falls = falls && item.measures == rank;
    }
    Ok(falls)
}

/// The name of what helps an item on: its helper, or else the transition that it waits for.
fn helping(alloc: Global, words: &Vocabulary, system: &Fts, item: &Item) -> Result<String, Memory> {
    match item.helper.or(item.group) {
        Some(transition) => transition_label(alloc, words, system, transition),
        None => Ok(String::new(alloc)),
    }
}

/// What an item says beside its assertion: its measures, and its helper where no line is named by it.
fn item_text(
    alloc: Global,
    words: &Vocabulary,
    system: &Fts,
    item: &Item,
    line: Line,
) -> Result<String, Memory> {
    let mut out = item.measures.clone()?;
    match (line, item.helper) {
        (Line::Solid, Some(helper)) => {
            out.push_str(", helper ")?;
            out.push_str(&transition_label(alloc, words, system, helper)?)?;
        }
        _ => {}
    }
    Ok(out)
}

/// What is written at the line that leads from an item.
fn line_label(
    alloc: Global,
    words: &Vocabulary,
    system: &Fts,
    item: &Item,
    line: Line,
) -> Result<String, Memory> {
    match line {
        Line::Double => helping(alloc, words, system, item),
        Line::Solid | Line::Heavy | Line::Dashed => Ok(String::new(alloc)),
    }
}

/// Adds the nodes of the items, each in its frame, and the lines from one to the next. Answers the last one, with the label of the line
/// that leads from it.
fn add_items(
    alloc: Global,
    graph: &mut Graph,
    words: &Vocabulary,
    system: &Fts,
    items: &[Item],
    line: Line,
    frames: &mut Frames,
) -> Result<Option<(usize, String)>, Memory> {
    let mut above: Option<(usize, String)> = None;
    for (place, item) in items.iter().enumerate() {
        let number = (place as u64).saturating_add(1);
        let more = item_text(alloc, words, system, item, line)?;
        let label = assertion_label(alloc, number, &item.assertion, &more)?;
        let node = graph.add_node(Shape::Assertion, label)?;
        frame(alloc, frames, item.group, node)?;
        if let Some((above, label)) = above {
            graph.add_edge(above, node, line, label)?;
        }
        above = Some((node, line_label(alloc, words, system, item, line)?));
    }
    Ok(above)
}

/// Adds a net that leads to a goal, to a graph with nothing in it.
pub(crate) fn add_net(
    alloc: Global,
    graph: &mut Graph,
    words: &Vocabulary,
    system: &Fts,
    items: &[Item],
    goal: &Form,
) -> Result<(), Memory> {
    let line = if is_chain(alloc, items)? {
        Line::Double
    } else {
        Line::Solid
    };
    let mut frames = IndexMap::new(alloc);
    let last = add_items(alloc, graph, words, system, items, line, &mut frames)?;
    add_frames(alloc, graph, words, system, frames)?;
    let goal = formula(alloc, words, goal)?;
    let label = assertion_label(alloc, 0, &goal, "")?;
    let terminal = graph.add_node(Shape::Terminal, label)?;
    if let Some((last, label)) = last {
        graph.add_edge(last, terminal, line, label)?;
    }
    Ok(())
}

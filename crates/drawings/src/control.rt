//! Control graphs: a circle for each location, framed by its process or by its child of a cooperation, and an edge for each way to
//! take a transition, with the guard and what is assigned. The entry and the exit of a cooperation are bars, since they lead from or
//! to several locations at once. Locations at which control never is, as behind a loop without end, are left out.

use crate::graph::{Cluster, Graph, Line, Shape};
use crate::labels::mode_label;
use crate::places::{first_location, may_be_taken, touched_locations};
use control_states::{Alternative, Component, Components};
use formula_words::Vocabulary;
use observations::Fairness;
use posed_conditions::TranslatedProgram;
use st_form::TransName;
use st_memory::Memory;
use std::alloc::Global;
use transition_system::{Mode, Transition};

/// The node of each location that is drawn.
type Drawn = Vec<Option<usize>>;

fn node_at(drawn: &[Option<usize>], location: u32) -> Option<usize> {
    match drawn.get(location as usize) {
        Some(node) => *node,
        None => None,
    }
}

/// Adds a node for each location that is drawn.
fn add_locations(
    alloc: Global,
    graph: &mut Graph,
    words: &Vocabulary,
    touched: &[bool],
) -> Result<Drawn, Memory> {
    let mut drawn = Vec::with_capacity(alloc, touched.len())?;
    for (location, mark) in touched.iter().enumerate() {
        let mut node = None;
        if *mark {
            let name = words.location(u32::try_from(location).unwrap_or(u32::MAX));
            let name = String::from_str(alloc, name)?;
            node = Some(graph.add_node(Shape::Location, name)?);
        }
        drawn.push(node)?;
    }
    Ok(drawn)
}

/// How many components are around each component.
fn depths(alloc: Global, components: &Components) -> Result<Vec<usize>, Memory> {
    let mut depths = Vec::new(alloc);
    for component in components.parts() {
        let depth = match component.around() {
            None => 0,
            Some((parent, _)) => {
                let around: usize = depths.get(parent as usize).copied().unwrap_or(0);
                around.saturating_add(1)
            }
        };
        depths.push(depth)?;
    }
    Ok(depths)
}

/// The frame of a component.
fn cluster_of(
    alloc: Global,
    label: &str,
    depth: usize,
    component: &Component,
    drawn: &[Option<usize>],
) -> Result<Cluster, Memory> {
    let mut nodes = Vec::new(alloc);
    for alternative in component.alternatives() {
        if let Alternative::Location(location) = alternative
            && let Some(node) = node_at(drawn, *location)
        {
            nodes.push(node)?;
        }
    }
    Ok(Cluster {
        label: String::from_str(alloc, label)?,
        depth,
        nodes,
    })
}

/// Adds the frames of all components, and the beginnings of processes.
fn add_components(
    alloc: Global,
    graph: &mut Graph,
    words: &Vocabulary,
    components: &Components,
    drawn: &[Option<usize>],
) -> Result<(), Memory> {
    let depths = depths(alloc, components)?;
    for (number, (component, depth)) in components.parts().iter().zip(&depths).enumerate() {
        let label = words.component(u32::try_from(number).unwrap_or(u32::MAX));
        graph
            .clusters
            .push(cluster_of(alloc, label, *depth, component, drawn)?)?;
        if component.around().is_none() {
            add_beginning(alloc, graph, component, drawn)?;
        }
    }
    Ok(())
}

fn add_beginning(
    alloc: Global,
    graph: &mut Graph,
    component: &Component,
    drawn: &[Option<usize>],
) -> Result<(), Memory> {
    if let Some(location) = first_location(component)
        && let Some(node) = node_at(drawn, location)
    {
        let from = graph.add_node(Shape::Beginning, String::new(alloc))?;
        graph.add_edge(from, node, Line::Solid, String::new(alloc))?;
    }
    Ok(())
}

fn line_of(fairness: Fairness) -> Line {
    match fairness {
        Fairness::Unfair => Line::Dashed,
        Fairness::Just => Line::Solid,
        Fairness::Compassionate => Line::Heavy,
    }
}

/// Adds a way from several locations, or to several, by a bar.
fn add_bar(
    alloc: Global,
    graph: &mut Graph,
    mode: &Mode,
    line: Line,
    label: String,
    drawn: &[Option<usize>],
) -> Result<(), Memory> {
    let bar = graph.add_node(Shape::Bar, String::new(alloc))?;
    for (place, location) in mode.at.iter().enumerate() {
        if let Some(from) = node_at(drawn, *location) {
            let label = if place == 0 {
                label.clone()?
            } else {
                String::new(alloc)
            };
            graph.add_edge(from, bar, line, label)?;
        }
    }
    for location in &mode.change.enters {
        if let Some(to) = node_at(drawn, *location) {
            graph.add_edge(bar, to, line, String::new(alloc))?;
        }
    }
    Ok(())
}

/// Adds one way to take a transition.
fn add_mode(
    alloc: Global,
    graph: &mut Graph,
    words: &Vocabulary,
    mode: &Mode,
    line: Line,
    drawn: &[Option<usize>],
) -> Result<(), Memory> {
    let label = mode_label(alloc, words, mode)?;
    match (mode.at.as_slice(), mode.change.enters.as_slice()) {
        ([from], [to]) => {
            if let (Some(from), Some(to)) = (node_at(drawn, *from), node_at(drawn, *to)) {
                graph.add_edge(from, to, line, label)?;
            }
            Ok(())
        }
        _ => add_bar(alloc, graph, mode, line, label, drawn),
    }
}

/// Adds all ways to take a transition. Idling isn't drawn.
fn add_transition(
    alloc: Global,
    graph: &mut Graph,
    words: &Vocabulary,
    transition: &Transition,
    drawn: &[Option<usize>],
) -> Result<(), Memory> {
    if transition.name == TransName::Idle {
        return Ok(());
    }
    let line = line_of(transition.fairness);
    for mode in &transition.modes {
        if may_be_taken(alloc, words, mode)? {
            add_mode(alloc, graph, words, mode, line, drawn)?;
        }
    }
    Ok(())
}

/// The control graph of a program. Lines are dashed where a run owes a transition nothing, and heavy where it owes compassion.
pub fn control_graph(
    alloc: Global,
    source: &TranslatedProgram,
    words: &Vocabulary,
) -> Result<Graph, Memory> {
    let name = String::from_str(alloc, "program")?;
    let mut graph = Graph::new(alloc, name, String::new(alloc));
    let touched = touched_locations(alloc, words, &source.system, &source.components)?;
    let drawn = add_locations(alloc, &mut graph, words, &touched)?;
    add_components(alloc, &mut graph, words, &source.components, &drawn)?;
    for transition in &source.system.transitions {
        add_transition(alloc, &mut graph, words, transition, &drawn)?;
    }
    Ok(graph)
}

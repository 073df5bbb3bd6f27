//! Graphs in the language DOT of Graphviz (Gansner, Koutsofios and North, *Drawing graphs with dot*). All texts stand between
//! quotation marks, in which quotation marks and backslashes are escaped.

use crate::graph::{Cluster, Edge, Graph, Line, Node, Shape};
use st_memory::Memory;
use std::alloc::Global;
use std::fmt::Write;

/// What every graph begins with.
const STYLE: &str =
    "  labelloc=t; fontname=\"monospace\"; fontsize=12; rankdir=TB;\n  node [fontname=\"monospace\", fontsize=11];\n  edge [fontname=\"monospace\", fontsize=10];\n";

/// Appends a text as it stands between quotation marks.
fn push_escaped(out: &mut String, text: &str) -> Result<(), Memory> {
    for letter in text.chars() {
        match letter {
            '"' => out.push_str("\\\"")?,
            '\\' => out.push_str("\\\\")?,
            '\n' => out.push_str("\\n")?,
            other => out.push(other)?,
        }
    }
    Ok(())
}

/// Appends a text between quotation marks.
fn push_quoted(out: &mut String, text: &str) -> Result<(), Memory> {
    out.push('"')?;
    push_escaped(out, text)?;
    out.push('"')?;
    Ok(())
}

/// Appends the label of an edge: lines that begin at the left behind a blank, so that no letter stands on the edge.
fn push_edge_label(out: &mut String, label: &str) -> Result<(), Memory> {
    out.push_str(", label=\"")?;
    for line in label.split('\n') {
        out.push(' ')?;
        push_escaped(out, line)?;
        out.push_str("\\l")?;
    }
    out.push('"')?;
    Ok(())
}

fn shape_text(shape: Shape) -> &'static str {
    match shape {
        Shape::Location => "shape=circle",
        Shape::Beginning => "shape=none, width=0, height=0",
        Shape::Bar => "shape=box, style=filled, fillcolor=black, width=0.6, height=0.06",
        Shape::Assertion => "shape=box, style=rounded",
        Shape::Terminal => "shape=box, style=rounded, peripheries=2",
    }
}

fn line_text(line: Line) -> &'static str {
    match line {
        Line::Solid => "style=solid",
        Line::Heavy => "style=bold, penwidth=2.5",
        Line::Dashed => "style=dashed",
        Line::Double => "color=\"black:invis:black\"",
    }
}

fn push_node(out: &mut String, place: usize, node: &Node) -> Result<(), Memory> {
    write!(out, "  n{place} [{}, label=", shape_text(node.shape))?;
    push_quoted(out, &node.label)?;
    out.push_str("];\n")?;
    Ok(())
}

fn push_edge(out: &mut String, edge: &Edge) -> Result<(), Memory> {
    write!(
        out,
        "  n{} -> n{} [{}",
        edge.from,
        edge.to,
        line_text(edge.line)
    )?;
    if !edge.label.is_empty() {
        push_edge_label(out, &edge.label)?;
    }
    out.push_str("];\n")?;
    Ok(())
}

/// Appends the end of so many frames.
fn push_closed(out: &mut String, count: usize) -> Result<(), Memory> {
    for _ in 0..count {
        out.push_str("  }\n")?;
    }
    Ok(())
}

/// Appends the beginning of a frame, with its nodes. Its label stands at the left, beside the way in.
fn push_opened(out: &mut String, number: usize, cluster: &Cluster) -> Result<(), Memory> {
    write!(
        out,
        "  subgraph cluster_{number} {{\n    labeljust=l; label="
    )?;
    push_quoted(out, &cluster.label)?;
    out.push_str(";\n   ")?;
    for node in &cluster.nodes {
        write!(out, " n{node};")?;
    }
    out.push_str("\n")?;
    Ok(())
}

/// Appends the frames. A frame ends where one begins that isn't inside of it.
fn push_clusters(out: &mut String, clusters: &[Cluster]) -> Result<(), Memory> {
    let mut open: usize = 0;
    for (number, cluster) in clusters.iter().enumerate() {
        push_closed(out, open.saturating_sub(cluster.depth))?;
        push_opened(out, number, cluster)?;
        open = open.min(cluster.depth).saturating_add(1);
    }
    push_closed(out, open)
}

fn push_graph(out: &mut String, graph: &Graph) -> Result<(), Memory> {
    out.push_str("digraph ")?;
    push_quoted(out, &graph.name)?;
    out.push_str(" {\n  label=")?;
    push_quoted(out, &graph.caption)?;
    out.push_str(";\n")?;
    out.push_str(STYLE)?;
    for (place, node) in graph.nodes.iter().enumerate() {
        push_node(out, place, node)?;
    }
    push_clusters(out, &graph.clusters)?;
    for edge in &graph.edges {
        push_edge(out, edge)?;
    }
    out.push_str("}\n")?;
    Ok(())
}

/// Graphs in DOT, one behind the other.
pub fn dot(alloc: Global, graphs: &[Graph]) -> Result<String, Memory> {
    let mut out = String::new(alloc);
    for graph in graphs {
        push_graph(&mut out, graph)?;
    }
    Ok(out)
}

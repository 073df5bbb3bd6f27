//! The levels of a nested waiting-for, from the highest down. A step may skip levels, which isn't drawn.

use crate::graph::{Graph, Line, Shape};
use crate::labels::assertion_label;
use formula_words::{Vocabulary, formula};
use st_form::Form;
use st_memory::Memory;
use std::alloc::Global;

/// Adds the levels of a rule, the highest first, to a graph with nothing in it.
pub(crate) fn add_levels(
    alloc: Global,
    graph: &mut Graph,
    words: &Vocabulary,
    forms: &[Form],
) -> Result<(), Memory> {
    let mut above = None;
    for (place, form) in forms.iter().enumerate() {
        let level = forms.len().saturating_sub(place).saturating_sub(1);
        let text = formula(alloc, words, form)?;
        let label = assertion_label(alloc, level as u64, &text, "")?;
        let shape = if level == 0 {
            Shape::Terminal
        } else {
            Shape::Assertion
        };
        let node = graph.add_node(shape, label)?;
        if let Some(above) = above {
            graph.add_edge(above, node, Line::Solid, String::new(alloc))?;
        }
        above = Some(node);
    }
    Ok(())
}

//! Whole diagrams.
//!
//! A diagram is read once, from left to right; an item is judged against the nodes that were read before it, of which there
//! are at most 64. So the time is linear in the text.

ghost use Rattle.std.specs.Prelude.{◌≡◌, ◌≤◌, IfOk};
ghost use Rattle.st_tokens.specs.Stream.{stream};
ghost use Rattle.st_reading.specs.Reading.{Reads, size};
ghost use Rattle.transition_system.specs.Plain.{plain_system};
ghost use Rattle.temporal_goals.specs.Plain.{plain_diagram};
ghost use Rattle.diagram_reader.specs.Faults.{see};
ghost use Rattle.diagram_reader.specs.Drawn.{setting_view, drawing_view};
ghost use Rattle.diagram_reader.specs.Drawing.{items_of, closed_of, drawing_of, diagram_of};

use crate::drawing::Drawing;
use crate::fault::DiagramFault;
use crate::item::{item_in, read_item};
use crate::setting::Setting;
use st_program::NameTable;
use st_reading::{Mark, advance, ahead, expect, place_of};
use st_tokens::Tokens;
use std::alloc::Global;
use temporal_goals::{Diagram, DiagramKind};
use transition_system::Fts;

/// All items that stand there, behind what was drawn before.
#[tactic(auto, unfolding(crate::specs::Drawing::items_of))]
fn items(
    alloc: Global,
    setting: &Setting<'_>,
    mut drawing: Drawing,
    tokens: &mut Tokens<'_>,
) -> Result<Drawing, DiagramFault>
    ensures reads { Reads see drawing_view result (stream tokens.new) (items_of (setting_view setting.now) (drawing_view drawing) (stream tokens.old)) }
    ensures shrinks { IfOk result (λ _. size (stream tokens.new) ≤ size (stream tokens.old)) }
{
    'chain: while let Some(next) = item_in(ahead(tokens)) {
        let place = place_of(tokens);
        advance(tokens);
        read_item(alloc, setting, next, place, &mut drawing, tokens)?;
    }
    Ok(drawing)
}

/// The end of a drawing.
#[tactic(auto, unfolding(crate::specs::Drawing::closed_of))]
fn closed(
    setting: &Setting<'_>,
    drawing: Drawing,
    tokens: &mut Tokens<'_>,
) -> Result<Diagram, DiagramFault>
    ensures reads { Reads see plain_diagram result (stream tokens.new) (closed_of (setting_view setting.now) (drawing_view drawing) (stream tokens.old)) }
    ensures shrinks { IfOk result (λ _. size (stream tokens.new) ≤ size (stream tokens.old)) }
{
    let place = expect(tokens, Mark::CloseBrace)?;
    let Drawing {
        terminal,
        nodes,
        edges,
    } = drawing;
    match terminal {
        Some(terminal) => Ok(Diagram {
            kind: setting.kind,
            terminal,
            nodes,
            edges,
        }),
        None => Err(DiagramFault::NoTerminal(place)),
    }
}

/// A drawing, from its `{` to its `}`.
#[tactic(auto, unfolding(crate::specs::Drawing::drawing_of))]
fn drawing(
    alloc: Global,
    setting: &Setting<'_>,
    tokens: &mut Tokens<'_>,
) -> Result<Diagram, DiagramFault>
    ensures reads { Reads see plain_diagram result (stream tokens.new) (drawing_of (setting_view setting.now) (stream tokens.old)) }
    ensures shrinks { IfOk result (λ _. size (stream tokens.new) ≤ size (stream tokens.old)) }
{
    expect(tokens, Mark::OpenBrace)?;
    let nothing = Drawing {
        terminal: None,
        nodes: Vec::new(alloc),
        edges: Vec::new(alloc),
    };
    let drawing = items(alloc, setting, nothing, tokens)?;
    closed(setting, drawing, tokens)
}

/// Reads the diagram of this kind at the front of the tokens. In a wait diagram `levels` is the highest level of the goal;
/// the other kinds don't use it.
pub fn read_diagram(
    alloc: Global,
    tokens: &mut Tokens<'_>,
    kind: DiagramKind,
    levels: u32,
    names: &NameTable,
    fts: &Fts,
) -> Result<Diagram, DiagramFault>
    ensures reads { Reads see plain_diagram result (stream tokens.new) (diagram_of kind levels names.now (plain_system fts.now) (stream tokens.old)) }
    ensures shrinks { IfOk result (λ _. size (stream tokens.new) ≤ size (stream tokens.old)) }
{
    let setting = Setting {
        kind,
        levels,
        names,
        fts,
    };
    drawing(alloc, &setting, tokens)
}

//! Items of a drawing: its terminal node, its nodes and its edges.

ghost use Rattle.std.specs.Prelude.{◌≡◌, ◌≤◌, IfOk};
ghost use Rattle.st_tokens.specs.Stream.{stream};
ghost use Rattle.st_form.specs.Plain.{plain};
ghost use Rattle.st_reading.specs.Reading.{Reads, size};
ghost use Rattle.diagram_reader.specs.Faults.{see};
ghost use Rattle.diagram_reader.specs.Drawn.{setting_view, drawing_view, terminal_view};
ghost use Rattle.diagram_reader.specs.Drawing.{item_in, terminal_of, item_of};

use crate::drawing::Drawing;
use crate::edge::edge;
use crate::fault::DiagramFault;
use crate::node::node;
use crate::setting::Setting;
use crate::unit::formula;
use st_form::Form;
use st_reading::{Mark, Sign, expect, is};
use st_tokens::Tokens;
use std::alloc::Global;

/// What an item is, by its first token.
#[derive(Clone, Copy, Debug, PartialEq, Eq)]
pub enum Item {
    Terminal,
    Node,
    Edge,
}

/// The item that begins so.
pub fn item_in(sign: Sign) -> Option<Item>
    ensures { result ≡ item_in sign }
{
    if is(sign, Mark::Terminal) {
        Some(Item::Terminal)
    } else if is(sign, Mark::Node) {
        Some(Item::Node)
    } else if is(sign, Mark::Edge) {
        Some(Item::Edge)
    } else {
        None
    }
}

/// The terminal node behind `terminal`, which stands at the place.
#[tactic(auto, unfolding(crate::specs::Drawing::terminal_of))]
fn terminal(
    alloc: Global,
    setting: &Setting<'_>,
    place: u64,
    before: &Option<Form>,
    tokens: &mut Tokens<'_>,
) -> Result<Form, DiagramFault>
    ensures reads { Reads see plain result (stream tokens.new) (terminal_of (setting_view setting.now) place (terminal_view before.now) (stream tokens.old)) }
    ensures shrinks { IfOk result (λ _. size (stream tokens.new) ≤ size (stream tokens.old)) }
{
    if before.is_some() {
        return Err(DiagramFault::Twice(place));
    }
    expect(tokens, Mark::Colon)?;
    let form = formula(alloc, setting, tokens)?;
    expect(tokens, Mark::Semicolon)?;
    Ok(form)
}

/// An item behind its first token, which stands at the place, and behind what was drawn before.
#[tactic(auto, unfolding(crate::specs::Drawing::item_of))]
pub fn read_item(
    alloc: Global,
    setting: &Setting<'_>,
    item: Item,
    place: u64,
    drawing: &mut Drawing,
    tokens: &mut Tokens<'_>,
) -> Result<(), DiagramFault>
    ensures reads { Reads see (λ _. drawing_view drawing.new) result (stream tokens.new) (item_of (setting_view setting.now) item place (drawing_view drawing.old) (stream tokens.old)) }
    ensures shrinks { IfOk result (λ _. size (stream tokens.new) ≤ size (stream tokens.old)) }
{
    match item {
        Item::Terminal => {
            let form = terminal(alloc, setting, place, &drawing.terminal, tokens)?;
            drawing.terminal = Some(form);
        }
        Item::Node => {
            let node = node(alloc, setting, place, &drawing.nodes, tokens)?;
            drawing.nodes.push(node)?;
        }
        Item::Edge => {
            let edge = edge(alloc, setting, place, &drawing.nodes, tokens)?;
            drawing.edges.push(edge)?;
        }
    }
    Ok(())
}

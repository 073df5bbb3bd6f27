//! What names a statement, and a part of one.

ghost use Rattle.std.specs.Prelude.{◌≡◌};
ghost use Rattle.assertions.specs.Labels.{labelled, part_named};

use crate::names::text_of;
use st_form::Part;
use st_program::NameTable;

/// The statement with this label.
pub fn labelled(names: &NameTable, label: &[u8]) -> Option<u32>
    ensures { result ≡ labelled names.now label.now }
{
    names.labelled(text_of(label)?)
}

/// The part of a cooperation with this name.
#[tactic(auto, unfolding(crate::specs::Labels::part_named))]
pub fn part_named(text: &[u8]) -> Option<Part>
    ensures { result ≡ part_named text.now }
{
    if text == b"entry".as_slice() {
        Some(Part::Entry)
    } else if text == b"exit".as_slice() {
        Some(Part::Exit)
    } else {
        None
    }
}

ghost use Rattle.std.specs.Prelude.{◌≡◌, ◌≤◌, [], Some, take, IfOk, OnOk, OnErr};
ghost use Rattle.st_outside.specs.Faults.{Rose};
ghost use Rattle.st_outside.specs.Sink.{IsShare, behind};

use st_outside::{Failed, Sink};
use std::alloc::Global;

/// A sink that holds what it has taken, and grows with it. It fails only where memory is refused.
#[derive(Drop)]
pub struct TextSink {
    text: Vec<u8>,
    faults: u64,
}

impl TextSink {
    pub fn new(alloc: Global) -> TextSink
        ensures { result.text.items ≡ [] }
    {
        TextSink {
            text: Vec::new(alloc),
            faults: 0,
        }
    }

    /// What was taken.
    pub fn into_text(self) -> Vec<u8>
        ensures { result.items ≡ self.text.items }
    {
        self.text
    }
}

impl Sink for TextSink {
    ghost taken = { λ s. Some s.text.items };

    ghost faults = { λ s. s.faults };

    fn write(&mut self, piece: &[u8]) -> Result<usize, Failed> {
        match self.text.extend_from_slice(piece) {
            Ok(()) => Ok(piece.len()),
            Err(_) => {
                self.faults = self.faults.saturating_add(1);
                Err(Failed)
            }
        }
    }
}

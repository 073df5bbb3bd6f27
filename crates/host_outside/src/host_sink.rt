ghost use Rattle.std.specs.Prelude.{◌≡◌, None};

use st_outside::{Failed, Sink};
use std::io::Write;

/// A sink over any writer, as standard output. It tells no content. A writer that takes nothing of a piece that isn't
/// empty has failed.
#[derive(Drop)]
pub struct HostSink<W: Write + Drop> {
    out: W,
    faults: u64,
}

impl<W: Write + Drop> HostSink<W> {
    pub fn new(out: W) -> HostSink<W>
        ensures { result.faults ≡ 0 }
    {
        HostSink { out, faults: 0 }
    }
}

impl<W: Write + Drop> Sink for HostSink<W> {
    ghost taken = { λ _. None };

    ghost faults = { λ s. s.faults };

    fn write(&mut self, piece: &[u8]) -> Result<usize, Failed> {
        match self.out.write(piece) {
            Ok(count) if 0 < count || piece.is_empty() => Ok(count),
            _ => {
                self.faults = self.faults.saturating_add(1);
                Err(Failed)
            }
        }
    }
}

ghost use Rattle.std.specs.Prelude.{◌≡◌, ℕ, ◌≤◌, List, Option, take, IfOk, OnOk, OnErr};
ghost use Rattle.st_outside.specs.Faults.{Rose};
ghost use Rattle.st_outside.specs.Sink.{IsShare, behind};

use crate::Failed;

/// Takes bytes in order.
pub trait Sink {
    /// The bytes taken so far, where they are told.
    ghost taken: { Self → Option (List ℕ) };

    /// How often the sink has failed.
    ghost faults: { Self → ℕ };

    /// Takes bytes from the front of the piece and answers how many: at least one, unless the piece is empty.
    fn write(&mut self, piece: &[u8]) -> Result<usize, Failed>
        ensures share { IfOk result (IsShare piece.now) }
        ensures bytes { IfOk result (λ n. taken self.new ≡ behind (taken self.old) (take n piece.now)) }
        ensures none { OnErr result (taken self.new ≡ taken self.old) }
        ensures later { faults self.old ≤ faults self.new }
        ensures quiet { OnOk result (faults self.new ≡ faults self.old) }
        ensures cause { OnErr result (Rose (faults self.old) (faults self.new)) };
}

ghost use Rattle.std.specs.Prelude.{◌≡◌, ℕ, ◌+◌, ◌^◌, ◌<◌, ◌≤◌, List, Option, length, IfOk, OnOk, OnErr, IfSome};
ghost use Rattle.st_outside.specs.Faults.{Rose, NoneFell};
ghost use Rattle.st_outside.specs.Files.{GivesFront};

use crate::Failed;

/// Files that are read by name, from any place on.
pub trait Files {
    /// The bytes of each name, where they are told.
    ghost told: { Self → List ℕ → Option (List ℕ) };

    /// How often each name has failed.
    ghost faults: { Self → List ℕ → ℕ };

    /// Puts bytes from the place `from` on into the front of `buf` and answers how many.
    /// `Ok(0)` means that the name's bytes end there. A name that isn't held is a fault of that name.
    fn read_at(&mut self, name: &str, from: u64, buf: &mut [u8]) -> Result<usize, Failed>
        requires room { 0 < length buf.old }
        requires near { from ≤ 2 ^ 28 }
        ensures same { told self.new ≡ told self.old }
        ensures bound { IfOk result (λ n. n ≤ length buf.old) }
        ensures bytes { IfOk result (λ n. IfSome (told self.old name.now) (λ bytes. GivesFront from bytes buf.new n)) }
        ensures later { NoneFell (faults self.old) (faults self.new) }
        ensures quiet { OnOk result (faults self.new ≡ faults self.old) }
        ensures cause { OnErr result (Rose (faults self.old name.now) (faults self.new name.now)) };
}

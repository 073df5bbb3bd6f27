ghost use Rattle.std.specs.Prelude.{◌≡◌, ℕ, ◌^◌, ◌<◌, ◌≤◌, None, length, IfOk, OnOk, OnErr, IfSome};
ghost use Rattle.st_outside.specs.Faults.{Rose, NoneFell};
ghost use Rattle.st_outside.specs.Files.{GivesFront};

use crate::{Failed, Files};

/// Passes each call on and tells no bytes. It stands for a real file, of which no contract can say what it holds.
#[derive(Drop)]
pub struct Silent<F: Files> {
    pub inner: F,
}

impl<F: Files> Files for Silent<F> {
    ghost use Rattle.std.specs.Prelude.{List, Option};

    ghost told = { λ _ _. None };

    ghost faults = { λ s. F.faults s.inner };

    fn read_at(&mut self, name: &str, from: u64, buf: &mut [u8]) -> Result<usize, Failed>
        requires room { 0 < length buf.old }
        requires near { from ≤ 2 ^ 28 }
        ensures same { F.told self.new.inner ≡ F.told self.old.inner }
        ensures bound { IfOk result (λ n. n ≤ length buf.old) }

        // The bytes are those of the files that it passes the call on to.
        ensures bytes { IfOk result (λ n. IfSome (F.told self.old.inner name.now) (λ bytes. GivesFront from bytes buf.new n)) }
        ensures later { NoneFell (F.faults self.old.inner) (F.faults self.new.inner) }
        ensures quiet { OnOk result (F.faults self.new.inner ≡ F.faults self.old.inner) }
        ensures cause { OnErr result (Rose (F.faults self.old.inner name.now) (F.faults self.new.inner name.now)) }
    {
        self.inner.read_at(name, from, buf)
    }
}

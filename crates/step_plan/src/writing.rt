//! The output text, written until all of it is taken.

ghost use Rattle.std.specs.Prelude.{◌≡◌, ℕ, ◌+◌, ◌-◌, ◌^◌, ◌<◌, ◌≤◌, List, length, take, OnOk, OnErr};
ghost use Rattle.st_outside.specs.Faults.{Rose};
ghost use Rattle.st_outside.specs.Sink.{behind};
ghost use Rattle.step_plan.specs.Writing.{TookProperPrefix};

use st_outside::{Failed, Sink};

/// Writes a whole text.
pub fn write_whole<S: Sink>(out: &mut S, text: &[u8]) -> Result<(), Failed>
    ensures ok { OnOk result (S.taken out.new ≡ behind (S.taken out.old) text.now) }
    ensures err { OnErr result (TookProperPrefix (S.taken out.old) (S.taken out.new) text.now) }
    ensures later { S.faults out.old ≤ S.faults out.new }
    ensures quiet { OnOk result (S.faults out.new ≡ S.faults out.old) }
    ensures cause { OnErr result (Rose (S.faults out.old) (S.faults out.new)) }
{
    let mut done = 0;
    while done < text.len() {
        match out.write(&text[done..]) {
            Ok(count) => done += count,
            Err(fault) => return Err(fault),
        }
    }
    Ok(())
}

//! Whether a run may begin with a store.

ghost use Rattle.std.specs.Prelude.{◌≡◌, All, IfOk};
ghost use Rattle.st_form.specs.Plain.{plain};
ghost use Rattle.spl_semantics.specs.Data.{store_of};
ghost use Rattle.spl_semantics.specs.Stores.{holds};
ghost use Rattle.schedule_reader.specs.Values.{IsWritten};

use spl_semantics::{MoveFault, is_true_at};
use st_memory::Memory;
use st_program::{Datum, Program};

/// Whether the initial condition holds in the store. With numbers as small as texts write them nothing is too large: a
/// comparison has at most 64 products of numbers below 2^32 and 2^30.
pub fn begins(program: &Program, store: &[Datum]) -> Result<bool, Memory>
    requires { All IsWritten store.now }
    ensures { IfOk result (λ b. b ≡ holds (plain program.now.initial) (store_of store.now)) }
{
    match is_true_at(&program.initial, store, &[]) {
        Ok(truth) => Ok(truth),
        Err(MoveFault::ValueLimit) => unreachable!(),
        Err(MoveFault::Memory) => Err(Memory),
    }
}

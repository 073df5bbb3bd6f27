//! New lists of rows.

ghost use Rattle.std.specs.Prelude.{◌<◌, length, OnOk};
ghost use Rattle.row_elimination.specs.Places.{placed_on};
ghost use Rattle.lean_elimination.specs.Arenas.{tracks, row_at, listed, AllUnder};
ghost use Rattle.lean_elimination.specs.Placings.{Places, IsFate};

use crate::arena::Arena;
use crate::fate::Fate;
use crate::stop::Stop;

const MOST_LINES: usize = 4096;

/// What becomes of the row at a place.
fn fate_at(arena: &Arena, k: usize) -> Fate
    requires { k < length arena.now.rows.items }
    ensures { IsFate (row_at (tracks arena.now.rows.items) k) result }
{
    let row = &arena.rows[k];
    if !row.entries.is_empty() {
        return Fate::Stays;
    }
    if row.constant < 0 {
        return Fate::Clashes;
    }
    if row.constant == 0 {
        return Fate::Goes;
    }
    if row.equal { Fate::Clashes } else { Fate::Goes }
}

/// Puts a row into a new list, unless it is a constant.
pub(crate) fn place(arena: &Arena, next: &mut Vec<usize>, k: usize) -> Result<(), Stop>
    requires row { k < length arena.now.rows.items }
    requires list { AllUnder (length arena.now.rows.items) next.old.items }
    ensures exact { Places result (tracks arena.now.rows.items) next.new.items
        (placed_on (listed (tracks arena.now.rows.items) next.old.items) (row_at (tracks arena.now.rows.items) k)) }
    ensures under { OnOk result (AllUnder (length arena.now.rows.items) next.new.items) }
{
    match fate_at(arena, k) {
        Fate::Clashes => Err(Stop::Clash(k)),
        Fate::Goes => Ok(()),
        Fate::Stays => {
            if next.len() < MOST_LINES {
                next.push(k)?;
                Ok(())
            } else {
                Err(Stop::Unfit)
            }
        }
    }
}

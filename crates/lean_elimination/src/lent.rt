//! Lent lines as lines of one's own, as the elimination by whole numbers wants them.

ghost use Rattle.std.specs.Prelude.{◌≡◌, IfOk, map};
ghost use Rattle.farkas_leaf.specs.Lent.{lent_line};

use farkas_leaf::LentLine;
use st_linear::Line;
use st_memory::Memory;
use std::alloc::Global;

/// Copies of lines whose forms are lent.
pub fn copied(alloc: Global, lines: &[LentLine]) -> Result<Vec<Line>, Memory>
    ensures { IfOk result (λ v. v.items ≡ map lent_line lines.now) }
{
    let mut out = Vec::with_capacity(alloc, lines.len())?;
    for line in lines {
        let form = line.form.copy(alloc)?;
        out.push(Line {
            form,
            equal: line.equal,
        })?;
    }
    Ok(out)
}

//! Problems on both sides of a cut: the form is at least 0, or it is below.

use crate::items::{Item, cut_name, push_kept};
use crate::limits::is_small;
use crate::stop::Stop;
use st_form::Form;
use st_linear::Lin;
use st_memory::Memory;
use std::alloc::Global;

/// The row of a side of a cut.
pub(crate) fn side_row(alloc: Global, form: &Lin, plus: bool) -> Result<Form, Stop> {
    if plus {
        return Ok(Form::Row(form.copy(alloc)?));
    }
    if !is_small(form) {
        return Err(Stop::Unfound);
    }
    Ok(Form::Row(form.complement(alloc)?))
}

/// The conjuncts with a side's row at their end.
pub(crate) fn side_items<'a>(
    alloc: Global,
    items: &[Item<'a>],
    form: &Lin,
    row: &'a Form,
    plus: bool,
) -> Result<Vec<Item<'a>>, Memory> {
    let mut out = Vec::with_capacity(alloc, items.len())?;
    push_kept(&mut out, items, 0)?;
    out.push(Item {
        name: cut_name(form, plus),
        form: row,
        from: items.len(),
        new: true,
    })?;
    Ok(out)
}

//! The names of conditions, as `step` prints them: cut out of the line that it prints of an open condition, so that there is one
//! writer of names.

use st_form::CondName;
use st_memory::Memory;
use st_program::NameTable;
use std::alloc::Global;
use std::str;
use step_report::{Reason, not_proved};
use temporal_goals::Step;

/// What stands before the name in the line of condition 0, and behind it.
const BEFORE: &[u8] = b"not proved: condition 0, ";

const BEHIND: &[u8] = b", open\n";

/// The name of a condition of these steps: the step's, the premise, the node's number if there is one, and the transition and
/// mode if there are. Empty for a step that isn't there.
pub fn condition_name(
    alloc: Global,
    names: &NameTable,
    steps: &[Step],
    name: &CondName,
) -> Result<String, Memory> {
    let mut line = Vec::new(alloc);
    not_proved(&mut line, names, steps, 0, name, Reason::Open)?;
    let end = line.len().saturating_sub(BEHIND.len());
    let name = line.get(BEFORE.len()..end).unwrap_or(b"".as_slice());
    Ok(String::from_str(alloc, str::from_utf8(name).unwrap_or(""))?)
}

//! Which version a text has.

use shared_reading::has_header;
use st_memory::Memory;
use std::alloc::Global;

fn is_blank(b: u8) -> bool {
    b == b' ' || b == b'\t' || b == b'\r' || b == b'\n'
}

/// Whether the first line of a text that has words is the header of version 3.
pub fn is_version_3(alloc: Global, text: &[u8]) -> Result<bool, Memory> {
    let blanks = text.iter().take_while(|b| is_blank(**b)).count();
    has_header(alloc, &text[blanks..])
}

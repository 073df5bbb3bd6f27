//! A proof that was found as the file in which it goes. Where it stands in one file with its program, the text that is searched has blanks
//! for the program and the line `proof`: both stand in front of it again.

use st_memory::Memory;
use std::alloc::Global;

/// The line that parts a program from its proof.
const PARTING: &[u8] = b"proof\n";

/// What stands behind the first line feed from a place on; nothing where there is none.
fn behind_line(text: &[u8], place: usize) -> &[u8] {
    let rest = text.get(place..).unwrap_or(&[]);
    match rest.iter().position(|byte| *byte == b'\n') {
        Some(last) => rest.get(last.saturating_add(1)..).unwrap_or(&[]),
        None => &[],
    }
}

/// The file of a proof: the text itself, or the program that stands in front of it, the line `proof`, and what is behind these.
pub fn whole_file(alloc: Global, front: Option<&[u8]>, proof: &[u8]) -> Result<Vec<u8>, Memory> {
    let Some(program) = front else {
        return Ok(Vec::from_slice(alloc, proof)?);
    };
    let mut file = Vec::from_slice(alloc, program)?;
    file.extend_from_slice(PARTING)?;
    file.extend_from_slice(behind_line(proof, program.len()))?;
    Ok(file)
}

//! Texts that are read whole, and files that are written whole or not at all: a file is written beside the one that it
//! replaces and then takes its name, which a system's `rename` does in one step (POSIX, `rename`).

use std::alloc::Global;
use std::io::{Read, Write};
use std::rt::Files;
use std::{fs, io};

/// The bytes up to the end, and no more than so many.
fn read_most<R: Read + Drop>(alloc: Global, from: R, most: u64) -> io::Result<Vec<u8>> {
    let mut bytes = Vec::new(alloc);
    from.take(most).read_to_end(&mut bytes)?;
    Ok(bytes)
}

/// The bytes of a file, and no more than so many of them.
pub fn file_text<R: Files>(rt: &R, alloc: Global, name: &str, most: u64) -> io::Result<Vec<u8>> {
    read_most(alloc, fs::open(rt, name)?, most)
}

/// The bytes of an input, as standard input, and no more than so many of them.
pub fn input_text<R: Read + Drop>(alloc: Global, input: R, most: u64) -> io::Result<Vec<u8>> {
    read_most(alloc, input, most)
}

fn write_to<R: Files>(rt: &R, name: &str, bytes: &[u8]) -> io::Result<()> {
    let mut file = fs::create(rt, name)?;
    file.write_all(bytes)?;
    file.flush()
}

/// Whether a name is that of something else than a file, as a pipe or a terminal: it is written as it stands.
fn is_special<R: Files>(rt: &R, name: &str) -> bool {
    match rt.metadata(name) {
        Ok(metadata) => !metadata.is_file(),
        Err(_) => false,
    }
}

/// Writes the bytes to the file of this name: behind an answer `Ok` it holds them all, and behind an error what it held
/// before. What stands under the name and is no file is written to as it comes.
pub fn replace_file<R: Files>(rt: &R, alloc: Global, name: &str, bytes: &[u8]) -> io::Result<()> {
    if is_special(rt, name) {
        return write_to(rt, name, bytes);
    }
    let beside = format!(in alloc; "{name}.part")?;
    let written = match write_to(rt, beside.as_str(), bytes) {
        Ok(()) => fs::rename(rt, beside.as_str(), name),
        Err(error) => Err(error),
    };
    if written.is_err() {
        let _ = fs::remove_file(rt, beside.as_str());
    }
    written
}

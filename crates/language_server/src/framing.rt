//! The base protocol of language servers: a message is a header, an empty line, and as many bytes as the header says (*Language
//! Server Protocol Specification*, 3.17, "Base Protocol").

use st_memory::Memory;
use std::str;

/// The most bytes that a message may have.
const MOST_OF_MESSAGE: usize = 1 << 26;

/// What stands at the front of the bytes that have come.
#[derive(Clone, Copy, Debug)]
pub enum Frame<'a> {
    /// A message, and how many bytes it took with its header.
    Whole { content: &'a [u8], taken: usize },
    /// A part of a message, or nothing.
    More,
    /// No header of a message, or one of a message that is too long.
    Broken,
}

/// The number behind the name of a field of a header, where the line has this field.
fn length_in(line: &[u8]) -> Option<usize> {
    let text = str::from_utf8(line).ok()?;
    let (name, value) = text.split_once(':')?;
    if !name.eq_ignore_ascii_case("content-length") {
        return None;
    }
    value.trim().parse::<usize>().ok()
}

/// A header: how many bytes it has with the empty line behind it, and how many the content has.
#[derive(Clone, Copy)]
struct Header {
    taken: usize,
    length: Option<usize>,
}

/// The header at the front; `None` where its empty line hasn't come.
fn read_header(bytes: &[u8]) -> Option<Header> {
    let mut taken = 0usize;
    let mut length = None;
    for line in bytes.split_inclusive(|byte| *byte == b'\n') {
        taken = taken.saturating_add(line.len());
        if !line.ends_with(b"\n") {
            return None;
        }
        let line = line.trim_ascii();
        if line.is_empty() {
            return Some(Header { taken, length });
        }
        if let Some(number) = length_in(line) {
            length = Some(number);
        }
    }
    None
}

/// What stands at the front of the bytes.
pub fn next_frame(bytes: &[u8]) -> Frame<'_> {
    let Some(header) = read_header(bytes) else {
        return Frame::More;
    };
    let Some(length) = header.length else {
        return Frame::Broken;
    };
    if MOST_OF_MESSAGE < length {
        return Frame::Broken;
    }
    let rest = bytes.split_at(header.taken.min(bytes.len())).1;
    if rest.len() < length {
        return Frame::More;
    }
    Frame::Whole {
        content: rest.split_at(length).0,
        taken: header.taken.saturating_add(length),
    }
}

/// Appends a message with its header.
pub fn push_message(out: &mut Vec<u8>, content: &[u8]) -> Result<(), Memory> {
    let mut digits = itoa::Buffer::new();
    out.extend_from_slice(b"Content-Length: ")?;
    out.extend_from_slice(digits.format(content.len() as u64).as_bytes())?;
    out.extend_from_slice(b"\r\n\r\n")?;
    out.extend_from_slice(content)?;
    Ok(())
}

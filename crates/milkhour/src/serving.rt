//! `lsp`: a language server over standard input and output.

use crate::finding::found_proof;
use crate::trouble::Trouble;
use host_outside::file_text;
use language_server::{Disk, Session, Stage};
use milkhour_run::Status;
use percent_encoding::percent_decode_str;
use st_memory::Memory;
use std::io::{self, Read, Write};
use std::rt::Runtime;
use std::thread::Threads;

/// The most bytes of a file that are looked at.
const MOST_OF_FILE: u64 = (1 << 22) + 1;

/// The files of this machine.
#[derive(Drop)]
struct HostDisk<'a, R: Runtime + AllocGlobal> {
    rt: &'a R,
}

impl<R: Runtime + AllocGlobal> Disk for HostDisk<'_, R> {
    fn text(&mut self, uri: &str) -> Result<Option<Vec<u8>>, Memory> {
        let alloc = self.rt.alloc();
        let Some(path) = uri.strip_prefix("file://") else {
            return Ok(None);
        };
        let Ok(path) = percent_decode_str(path).decode_utf8(alloc) else {
            return Ok(None);
        };
        Ok(file_text(self.rt, alloc, path.as_str(), MOST_OF_FILE).ok())
    }
}

/// The status that the protocol asks for: 0 where the client ended as it should.
fn status_of(stage: Stage) -> u8 {
    match stage {
        Stage::Ended => 0,
        Stage::Running | Stage::ShutDown | Stage::BrokenOff => 1,
    }
}

fn is_over(stage: Stage) -> bool {
    matches!(stage, Stage::Ended | Stage::BrokenOff)
}

/// Makes the searches that the client waits for, and goes on with what came behind each.
fn make_searches<R: Runtime + AllocGlobal + Threads + Sync>(
    rt: &R,
    session: &mut Session,
    disk: &mut HostDisk<'_, R>,
    out: &mut Vec<u8>,
) -> Result<(), Memory> {
    let alloc = rt.alloc();
    for _ in 0..u64::MAX {
        let found = match session.wanted() {
            Some(wanted) => found_proof(rt, alloc, wanted.program, wanted.proof)?,
            None => break,
        };
        session.give(alloc, found.as_deref(), out)?;
        session.feed(alloc, disk, b"", out)?;
    }
    Ok(())
}

/// Serves an editor until it ends.
pub fn serve<R: Runtime + AllocGlobal + Threads + Sync>(rt: &R) -> Result<u8, Trouble> {
    let alloc = rt.alloc();
    let mut session = Session::new(alloc);
    let mut disk = HostDisk { rt };
    let mut input = rt.reader();
    let mut chunk = [0u8; 4096];
    for _ in 0..u64::MAX {
        let count = match input.read(&mut chunk) {
            Ok(count) => count,
            Err(_) => return Ok(Status::ReadFault.number()),
        };
        let bytes = chunk.as_slice().split_at(count.min(chunk.len())).0;
        if bytes.is_empty() {
            break;
        }
        let mut out = Vec::new(alloc);
        session.feed(alloc, &mut disk, bytes, &mut out)?;
        make_searches(rt, &mut session, &mut disk, &mut out)?;
        if let Err(error) = io::writer(rt).write_all(out.as_slice()) {
            return Err(Trouble::Writing(error));
        }
        if is_over(session.stage()) {
            break;
        }
    }
    Ok(status_of(session.stage()))
}

//! A session: bytes come as they come, and each message is taken as soon as it is whole.

use crate::framing::{Frame, next_frame};
use crate::server::{Server, Stage};
use crate::texts::Disk;
use st_memory::Memory;
use std::alloc::Global;

/// A session with an editor, and the bytes of a message that isn't whole, or that waits.
#[derive(Drop)]
pub struct Session {
    server: Server,
    held: Vec<u8>,
}

/// The texts of a search that a client waits for.
#[derive(Clone, Copy, Debug)]
pub struct Wanted<'a> {
    pub program: &'a [u8],
    pub proof: &'a [u8],
}

/// Takes the whole messages at the front of the bytes, up to one that waits for a search, and says how many bytes they took.
fn take_messages<D: Disk>(
    alloc: Global,
    server: &mut Server,
    disk: &mut D,
    bytes: &[u8],
    out: &mut Vec<u8>,
) -> Result<usize, Memory> {
    let mut taken = 0usize;
    // No message has fewer bytes than one.
    for _ in 0..bytes.len() {
        if server.search().is_some() {
            break;
        }
        match next_frame(bytes.split_at(taken.min(bytes.len())).1) {
            Frame::Whole {
                content,
                taken: more,
            } => {
                server.receive(alloc, disk, content, out)?;
                taken = taken.saturating_add(more);
            }
            Frame::More => break,
            Frame::Broken => {
                server.break_off();
                break;
            }
        }
    }
    Ok(taken)
}

impl Session {
    pub fn new(alloc: Global) -> Session {
        Session {
            server: Server::new(alloc),
            held: Vec::new(alloc),
        }
    }

    pub fn stage(&self) -> Stage {
        self.server.stage()
    }

    /// The search that a client waits for. No message behind its own is taken before it has ended.
    pub fn wanted(&self) -> Option<Wanted<'_>> {
        let search = self.server.search()?;
        Some(Wanted {
            program: search.program.text.as_slice(),
            proof: search.proof.text.as_slice(),
        })
    }

    /// Ends the search that a client waits for, with the text of a proof or without: appends what is sent to it.
    pub fn give(
        &mut self,
        alloc: Global,
        found: Option<&[u8]>,
        out: &mut Vec<u8>,
    ) -> Result<(), Memory> {
        self.server.end_search(alloc, found, out)
    }

    /// Takes bytes of the client, and appends what is sent to it.
    pub fn feed<D: Disk>(
        &mut self,
        alloc: Global,
        disk: &mut D,
        bytes: &[u8],
        out: &mut Vec<u8>,
    ) -> Result<(), Memory> {
        self.held.extend_from_slice(bytes)?;
        let taken = take_messages(alloc, &mut self.server, disk, self.held.as_slice(), out)?;
        let rest = self.held.split_at(taken.min(self.held.len())).1;
        self.held = Vec::from_slice(alloc, rest)?;
        Ok(())
    }
}

//! A sink in memory, which fails where a test wants it.

ghost use Rattle.std.specs.Prelude.{◌≡◌, ◌+◌, ◌≤◌, ◌↔◌, Some, [], take, vec_len, vec_capacity, IfOk, OnOk, OnErr, IsErr};
ghost use Rattle.st_outside.specs.Faults.{Rose, risen};
ghost use Rattle.st_outside.specs.Sink.{IsShare, behind};

use crate::{Failed, Memory, Sink};
use std::alloc::Global;

/// A sink in memory, with room for a number of bytes. It fails at the calls that are listed, numbered from 1, and where
/// it could take nothing of a piece. One call takes at most `most` bytes.
#[derive(Drop)]
pub struct MemorySink {
    bytes: Vec<u8>,
    room: usize,
    failing: Vec<u64>,
    most: usize,
    calls: u64,
    faults: u64,
    ghost reserved: { vec_len bytes + room ≤ vec_capacity bytes },
}

impl MemorySink {
    ghost use Rattle.st_outside.specs.MemoryKinds.{NewSink, taken_by, write_calls, write_faults};

    /// Makes the room that all later writes need.
    pub fn new(
        alloc: Global,
        room: usize,
        failing: Vec<u64>,
        most: usize,
    ) -> Result<MemorySink, Memory>
        ensures { IfOk result (NewSink room failing.items most) }
    {
        Ok(MemorySink {
            bytes: Vec::with_capacity(alloc, room)?,
            room,
            failing,
            most,
            calls: 0,
            faults: 0,
        })
    }

    /// What was taken.
    pub fn bytes(&self) -> &[u8]
        ensures { result.now ≡ taken_by self.now }
    {
        &self.bytes
    }

    /// How many calls were made. It stays at its type's end.
    pub fn calls(&self) -> u64
        ensures { result ≡ write_calls self.now }
    {
        self.calls
    }

    /// How many calls have failed. It stays at its type's end.
    pub fn faults(&self) -> u64
        ensures { result ≡ write_faults self.now }
    {
        self.faults
    }
}

impl Sink for MemorySink {
    ghost taken = { λ s. Some (taken_by s) };

    ghost faults = { λ s. write_faults s };

    ghost use Rattle.st_outside.specs.MemoryKinds.{share, taken_by, room_left, write_faults, WriteFails, NextWrite};

    fn write(&mut self, piece: &[u8]) -> Result<usize, Failed>
        ensures share { IfOk result (IsShare piece.now) }
        ensures bytes { IfOk result (λ n. Some (taken_by self.new) ≡ behind (Some (taken_by self.old)) (take n piece.now)) }
        ensures none { OnErr result (Some (taken_by self.new) ≡ Some (taken_by self.old)) }
        ensures later { write_faults self.old ≤ write_faults self.new }
        ensures quiet { OnOk result (write_faults self.new ≡ write_faults self.old) }
        ensures cause { OnErr result (Rose (write_faults self.old) (write_faults self.new)) }

        // It fails exactly where the call is listed, or where it could take nothing of a piece.
        ensures fails { IsErr result ↔ WriteFails self.old piece.now }
        ensures count { IfOk result (λ n. (n ≡ share self.old piece.now) × (room_left self.new + n ≡ room_left self.old)) }
        ensures rises { OnErr result ((write_faults self.new ≡ risen (write_faults self.old)) × (room_left self.new ≡ room_left self.old)) }
        ensures next { NextWrite self.old self.new }
    {
        self.calls = self.calls.saturating_add(1);
        let count = piece.len().min(self.most).min(self.room);
        if self.failing.contains(&self.calls) {
            self.faults = self.faults.saturating_add(1);
            return Err(Failed);
        }
        if count == 0 && !piece.is_empty() {
            self.faults = self.faults.saturating_add(1);
            return Err(Failed);
        }
        match self.bytes.extend_from_slice(&piece[..count]) {
            Ok(()) => {
                self.room -= count;
                Ok(count)
            }
            Err(_) => unreachable!(),
        }
    }
}

//! Files in memory, which fail where a test wants it.

ghost use Rattle.std.specs.Prelude.{◌≡◌, ℕ, ◌+◌, ◌-◌, ◌^◌, ◌<◌, ◌≤◌, ◌↔◌, List, length, min, position, string_bytes, IfOk, OnOk, OnErr, IsErr, IfSome, is_ok, if◌then◌else◌};
ghost use Rattle.st_outside.specs.Faults.{Rose, NoneFell, risen};
ghost use Rattle.std.specs.Str.{bytes_eq};
ghost use Rattle.st_outside.specs.Files.{GivesFront};
ghost use Rattle.st_outside.specs.Memory.{place, bytes_of, count_of};

use crate::{Failed, Files, Memory};
use std::alloc::Global;

/// Files in memory, as pairs of a name and its bytes. Of two pairs with one name, the first counts. They fail at the
/// calls that are listed, numbered from 1, and for a name that isn't held. One call gives at most `most` bytes. There
/// is one count of faults for each pair, and one for all names that aren't held.
#[derive(Drop)]
pub struct MemoryFiles {
    files: Vec<(String, Vec<u8>)>,
    failing: Vec<u64>,
    most: usize,
    calls: u64,
    counts: Vec<u64>,
    others: u64,
    failed: u64,
    ghost counted: { length counts.items ≡ length files.items },
    ghost some: { 1 ≤ most },
}

impl MemoryFiles {
    ghost use Rattle.st_outside.specs.MemoryKinds.{NewFiles, read_calls, read_faults};

    pub fn new(
        alloc: Global,
        files: Vec<(String, Vec<u8>)>,
        failing: Vec<u64>,
        most: usize,
    ) -> Result<MemoryFiles, Memory>
        requires { 1 ≤ most }
        ensures { IfOk result (NewFiles files.items failing.items most) }
    {
        let counts = vec![in alloc; 0; files.len()]?;
        Ok(MemoryFiles {
            files,
            failing,
            most,
            calls: 0,
            counts,
            others: 0,
            failed: 0,
        })
    }

    /// How many calls were made. It stays at its type's end.
    pub fn calls(&self) -> u64
        ensures { result ≡ read_calls self.now }
    {
        self.calls
    }

    /// How many calls have failed, over all names. It stays at its type's end.
    pub fn faults(&self) -> u64
        ensures { result ≡ read_faults self.now }
    {
        self.failed
    }
}

fn is_named(file: &(String, Vec<u8>), name: &str) -> bool
    ensures { result ≡ bytes_eq (string_bytes file.now.0) name.now }
{
    file.0.as_str() == name
}

fn first_named(files: &[(String, Vec<u8>)], name: &str) -> Option<usize>
    ensures { result ≡ position (λ file. bytes_eq (string_bytes file.0) name.now) files.now }
{
    files.iter().position(|file| is_named(file, name))
}

fn place_in(files: &[(String, Vec<u8>)], name: &str) -> usize
    ensures { result ≡ place (λ file. string_bytes file.0) files.now name.now }
{
    first_named(files, name).unwrap_or(files.len())
}

fn give(bytes: &[u8], from: u64, most: usize, buf: &mut [u8]) -> usize
    requires room { 0 < length buf.old }
    requires some { 1 ≤ most }
    ensures count { result ≡ min (min most (length buf.old)) (length bytes.now - from) }
    ensures front { GivesFront from bytes.now buf.new result }
{
    let start = from as usize;
    if start >= bytes.len() {
        return 0;
    }
    let count = most.min(buf.len()).min(bytes.len() - start);
    buf[..count].copy_from_slice(&bytes[start..start + count]);
    count
}

impl Files for MemoryFiles {
    ghost use Rattle.st_outside.specs.MemoryKinds.{told_by, faults_by, read_faults, largest_read, ReadFails, IsCountedApart, NextRead};

    ghost told = { told_by };

    ghost faults = { faults_by };

    fn read_at(&mut self, name: &str, from: u64, buf: &mut [u8]) -> Result<usize, Failed>
        requires room { 0 < length buf.old }
        requires near { from ≤ 2 ^ 28 }
        ensures same { told_by self.new ≡ told_by self.old }
        ensures bound { IfOk result (λ n. n ≤ length buf.old) }
        ensures bytes { IfOk result (λ n. IfSome (told_by self.old name.now) (λ bytes. GivesFront from bytes buf.new n)) }
        ensures later { NoneFell (faults_by self.old) (faults_by self.new) }
        ensures quiet { OnOk result (faults_by self.new ≡ faults_by self.old) }
        ensures cause { OnErr result (Rose (faults_by self.old name.now) (faults_by self.new name.now)) }

        // It fails exactly where the call is listed or the name is not held.
        ensures fails { IsErr result ↔ ReadFails self.old name.now }
        ensures rises { OnErr result (faults_by self.new name.now ≡ risen (faults_by self.old name.now)) }
        ensures count { IfOk result (λ n. IfSome (told_by self.old name.now) (λ bytes.
            n ≡ min (min (largest_read self.old) (length buf.old)) (length bytes - from))) }
        ensures total { read_faults self.new ≡ (if is_ok result then read_faults self.old else risen (read_faults self.old)) }
        ensures next { NextRead self.old self.new }
        // The counts of other names stay.
        ensures others { (other : List ℕ) → IsCountedApart self.old name.now other → faults_by self.new other ≡ faults_by self.old other }
    {
        self.calls = self.calls.saturating_add(1);
        let i = place_in(&self.files, name);
        if i >= self.files.len() {
            self.others = self.others.saturating_add(1);
            self.failed = self.failed.saturating_add(1);
            return Err(Failed);
        }
        if self.failing.contains(&self.calls) {
            self.counts[i] = self.counts[i].saturating_add(1);
            self.failed = self.failed.saturating_add(1);
            return Err(Failed);
        }
        let bytes = &self.files[i].1;
        Ok(give(bytes, from, self.most, buf))
    }
}

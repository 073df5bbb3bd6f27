//! Blocks are taken from bytes that come in any pieces.

ghost use Rattle.std.specs.Prelude.{◌≡◌, ◌+◌, ◌-◌, ◌<◌, ◌≤◌, ◌^◌, ◌++◌, ◌∷◌, [], OnOk, OnErr, IfOk, IfSome, length, map, take, drop, true, false, Some, None, IsTrue, nat_lt, if◌then◌else◌};
ghost use Rattle.cert_text.specs.Reading.{progress_view, pending_view, after, start};
ghost use Rattle.st_certificate.specs.Plain.{plain};
ghost use Rattle.cert_text.specs.Tree.{last_tree};
ghost use Rattle.cert_text.specs.Answer.{answer_view, at_end, block, need, judged};
ghost use Rattle.cert_text.specs.Blank.{first_place, past_blanks};
ghost use Rattle.cert_text.specs.Held.{nothing_held, answer_of, taken_from};

use crate::blank::{either, front_len, header_may_come};
use crate::control::give;
use crate::letters::Letters;
use crate::pieces::run;
use crate::progress::{Pending, Progress, Stage};
use crate::scan::{Given, Scan, Token, Want};
use crate::tree::Building;
use crate::words::word_of;
use st_certificate::Certificate;
use st_memory::Memory;
use std::alloc::Global;
use std::marker::Model;

#[derive(Drop)]
pub struct Block {
    pub number: u32,
    pub certificate: Certificate,
}

#[derive(Drop)]
pub enum NextBlock {
    Block(Block),
    Need,
    End,
    Malformed(u64),
    CertLimit(u64),
}

/// Nothing of a block is read.
fn beginning(alloc: Global, number: u32, second: bool) -> Progress
    ensures { progress_view result ≡ start number second }
{
    Progress {
        stage: Stage::Going,
        scan: Scan {
            want: Want::Block {
                header: number < 2 && !second,
            },
            number,
            second,
            depth: 0,
            trees: 0,
        },
        pending: Pending::Idle,
        letters: Letters::new(),
        building: Building::new(alloc),
    }
}

fn judged(given: Given, place: u64, end: u64) -> NextBlock
    ensures { answer_view result ≡ judged given place end }
{
    match given {
        Given::On(_, _) => NextBlock::Malformed(end),
        Given::Wrong => NextBlock::Malformed(place),
        Given::Over => NextBlock::CertLimit(place),
    }
}

/// The answer where a text ends that holds no whole block.
fn at_end(progress: &Progress, end: u64) -> NextBlock
    ensures { answer_view result ≡ at_end progress.now.scan (pending_view progress.now.pending progress.now.letters) end }
{
    match progress.pending {
        Pending::Idle => match progress.scan.want {
            Want::Block { header: _ } => NextBlock::End,
            _ => NextBlock::Malformed(end),
        },
        Pending::Word(place) => match word_of(progress.letters.as_slice()) {
            Some(word) => judged(give(progress.scan, Token::Word(word)), place, end),
            None => NextBlock::Malformed(place),
        },
        Pending::Number(place, n) => judged(give(progress.scan, Token::Number(n)), place, end),
    }
}

/// The answer where the bytes hold no whole block: more are needed, or the text ends.
fn waiting(progress: &Progress, finished: bool, end: u64) -> NextBlock
    ensures { answer_view result ≡ if finished then at_end progress.now.scan (pending_view progress.now.pending progress.now.letters) end else need }
{
    if finished {
        at_end(progress, end)
    } else {
        NextBlock::Need
    }
}

fn block_of(number: u32, certificate: Certificate) -> NextBlock
    ensures { answer_view result ≡ block number (plain certificate) }
{
    NextBlock::Block(Block {
        number,
        certificate,
    })
}

/// Reads on to the end of the bytes, or of the block.
fn read_on(
    progress: &mut Progress,
    alloc: Global,
    number: u32,
    second: bool,
    bytes: &[u8],
    taken: usize,
    scanned: usize,
    place: u64,
) -> Result<(), Memory>
    requires room { place + (length bytes.now - taken) < 2 ^ 64 }
    requires taken { taken ≤ scanned }
    requires scanned { scanned ≤ length bytes.now }
    requires followed { progress_view progress.old ≡ after place (start number second) (take (scanned - taken) (drop taken bytes.now)) }
    ensures { OnOk result (progress_view progress.new ≡ after place (start number second) (drop taken bytes.now)) }
{
    run(
        progress,
        alloc,
        place + (scanned - taken) as u64,
        &bytes[scanned..],
    )
}

fn last_tree(trees: &mut Vec<Certificate>) -> Certificate
    ensures { plain result ≡ last_tree (map plain trees.old.items) }
{
    match trees.pop() {
        Some(tree) => tree,
        None => Certificate::Absurd,
    }
}

/// Takes blocks from bytes that come in any pieces.
#[derive(Drop)]
pub struct CertReader {
    alloc: Global,
    /// Those before `taken` are taken.
    bytes: Vec<u8>,
    taken: usize,
    /// Those from `taken` to here are read.
    scanned: usize,
    /// The place of the first byte that is not taken.
    place: u64,
    number: u32,
    second: bool,
    finished: bool,
    progress: Progress,
}

impl Model for CertReader {
    ghost use Rattle.std.specs.Prelude.{drop};
    ghost use Rattle.cert_text.specs.Held.{Held, IsFollowed};

    ghost Value = { Held };

    ghost view = { λ a. record { bytes = drop a.taken a.bytes.items; place = a.place; number = a.number; second = a.second; finished = a.finished } };

    ghost invariant = { λ a. IsFollowed a.bytes.items a.taken a.scanned a.place a.number a.second a.progress };
}

impl CertReader {
    pub fn new(alloc: Global) -> CertReader
        ensures { result ≡ nothing_held }
    {
        CertReader {
            alloc,
            bytes: Vec::new(alloc),
            taken: 0,
            scanned: 0,
            place: 0,
            number: 1,
            second: false,
            finished: false,
            progress: beginning(alloc, 1, false),
        }
    }

    /// The number of bytes that are pushed and not yet taken.
    pub fn held(&self) -> u64
        ensures { result ≡ length self.now.bytes }
    {
        (self.bytes.len() - self.taken) as u64
    }

    /// Tells that no more bytes come.
    pub fn finish(&mut self)
        ensures { self.new ≡ record self.old { finished = true } }
    {
        self.finished = true;
    }

    /// Appends a piece of the text.
    pub fn push(&mut self, piece: &[u8]) -> Result<(), Memory>
        requires open { self.old.finished ≡ false }
        requires room { self.old.place + length self.old.bytes + length piece.now < 2 ^ 64 }
        ensures ok { OnOk result (self.new ≡ record self.old { bytes = self.old.bytes ++ piece.now }) }
        ensures err { OnErr result (self.new ≡ self.old) }
    {
        if self.taken > self.bytes.len() / 2 {
            self.bytes.drain(..self.taken);
            self.scanned -= self.taken;
            self.taken = 0;
        }
        self.bytes.extend_from_slice(piece)?;
        Ok(())
    }

    /// The next block, or why there is none.
    pub fn next_block(&mut self) -> Result<NextBlock, Memory>
        requires { self.old.number < 2 ^ 32 - 1 }
        ensures answer { IfOk result (λ x. answer_view x ≡ answer_of self.old) }
        ensures taken { OnOk result (self.new ≡ taken_from self.old) }
        ensures err { OnErr result (self.new ≡ self.old) }
    {
        match read_on(
            &mut self.progress,
            self.alloc,
            self.number,
            self.second,
            self.bytes.as_slice(),
            self.taken,
            self.scanned,
            self.place,
        ) {
            Ok(()) => {
                self.scanned = self.bytes.len();
            }
            Err(error) => {
                self.progress = beginning(self.alloc, self.number, self.second);
                self.scanned = self.taken;
                return Err(error);
            }
        }
        match self.progress.stage {
            Stage::Going => {
                let end = self.place + (self.bytes.len() - self.taken) as u64;
                Ok(waiting(&self.progress, self.finished, end))
            }
            Stage::Malformed(place) => Ok(NextBlock::Malformed(place)),
            Stage::Over(place) => Ok(NextBlock::CertLimit(place)),
            Stage::Whole(end) => {
                let number = self.number;
                let certificate = last_tree(&mut self.progress.building.trees);
                self.taken += (end - self.place) as usize;
                self.scanned = self.taken;
                self.place = end;
                self.number += 1;
                self.second = self.progress.scan.second;
                self.progress = beginning(self.alloc, self.number, self.second);
                Ok(block_of(number, certificate))
            }
        }
    }

    /// The bytes that are pushed and not yet taken.
    pub fn front(&self) -> &[u8]
        ensures { result.now ≡ self.now.bytes }
    {
        &self.bytes[self.taken..]
    }

    /// Whether a header is taken, which says that the text is of version 2.
    pub fn is_second(&self) -> bool
        ensures { result ≡ self.now.second }
    {
        self.second
    }

    /// Takes so many bytes for the next block, whose tree is known without reading them.
    pub fn skip(&mut self, count: usize)
        requires number { self.old.number < 2 ^ 32 - 1 }
        requires held { count ≤ length self.old.bytes }
        ensures { self.new ≡ record self.old { bytes = drop count self.old.bytes; place = self.old.place + count; number = self.old.number + 1 } }
    {
        self.taken += count;
        self.scanned = self.taken;
        self.place += count as u64;
        self.number += 1;
        self.progress = beginning(self.alloc, self.number, self.second);
    }

    /// The place of the first byte not yet taken that isn't blank. The blanks before it are taken.
    pub fn trailing(&mut self) -> Option<u64>
        ensures place { result ≡ first_place self.new }
        ensures taken { self.new ≡ past_blanks self.old }
    {
        self.skip_blanks();
        if self.taken == self.bytes.len() {
            None
        } else {
            Some(self.place)
        }
    }

    /// Takes what counts as blank.
    fn skip_blanks(&mut self)
        ensures { self.new ≡ past_blanks self.old }
    {
        let header = header_may_come(self.number, self.second);
        let (len, found) = front_len(header, &self.bytes[self.taken..]);
        if len == 0 {
            return;
        }
        self.taken += len;
        self.place += len as u64;
        self.second = either(found, self.second);
        self.scanned = self.taken;
        self.progress = beginning(self.alloc, self.number, self.second);
    }
}

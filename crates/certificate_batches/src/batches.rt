//! Blocks that are taken while their text comes, and the conditions that are checked in batches of 64.

ghost use Rattle.std.specs.Prelude.{◌≡◌, ℕ, ◌+◌, ◌-◌, ◌<◌, ◌≤◌, ◌^◌, ◌++◌, [], List, Some, None, IsSome, IfOk, OnOk, length, true, false};
ghost use Rattle.std.specs.Thread.{IsSync};
ghost use Rattle.st_form.specs.Condition.{Implication};
ghost use Rattle.st_form.specs.declared.conditions.Condition.{Condition};
ghost use Rattle.farkas_check.specs.Problem.{Setting};
ghost use Rattle.cert_laws.specs.Laws.{closed, MayFollow};
ghost use Rattle.block_laws.specs.Checked.{block_tested};
ghost use Rattle.block_laws.specs.Plain.{plains};
ghost use Rattle.certificate_batches.specs.Finding.{finding, IsAmong};
ghost use Rattle.certificate_batches.specs.Claims.{setting_of, conditions_of, MayBeChecked};
ghost use Rattle.certificate_batches.specs.Turns.{reach, trailing};
ghost use Rattle.certificate_batches.specs.Batches.{comes_to, Keeps, AreInOrder, AreAllDischarged, IsLeft};
ghost use Rattle.certificate_batches.specs.Following.{IsFollower};

use crate::crew::Crew;
use crate::following::Follower;
use crate::passing::Compared;
use crate::turns::{Turn, drop_blanks, drop_front, next_turn};
use crate::{Claims, Finding};
use cert_text::{Block, CertReader};
use discharge::check_all;
use script_obligations::laws::searchable_is_checkable;
use st_memory::Memory;
use st_outside::Gate;
use std::alloc::Global;
use std::thread::Threads;
use step_report::Reason;

const BATCH: usize = 64;

/// The number, from 1 on, of the condition at a place behind those before it.
fn number_behind(before: usize, place: usize) -> u32
    requires { before + place < 20000 }
    ensures { result ≡ before + place + 1 }
{
    (before + place) as u32 + 1
}

/// The text that isn't yet taken, the blocks that wait for their check, and how many conditions are discharged.
#[derive(Drop)]
pub struct Batches {
    reader: CertReader,
    blocks: Vec<Block>,
    discharged: usize,
    /// What all comes to, whatever follows.
    settled: Option<Finding>,
    /// How much was held when a header was last looked for.
    looked: u64,
}

impl Batches {
    pub fn new(alloc: Global) -> Batches
        ensures begun { (k : Setting) (cs : List Condition) (text : List ℕ) → comes_to k cs result text ≡ finding k (plains cs) text }
        ensures order { (cs : List Condition) → AreInOrder cs result }
        ensures unfinished { result.reader.finished ≡ false }
        ensures reached { reach result.reader ≡ 0 }
    {
        Batches {
            reader: CertReader::new(alloc),
            blocks: Vec::new(alloc),
            discharged: 0,
            settled: None,
            looked: 0,
        }
    }

    /// Checks the blocks that wait.
    fn discharge<R: Threads + Sync, G: Gate + Sync>(
        &mut self,
        crew: &Crew<'_, R, G>,
        claims: &Claims<'_>,
    ) -> Result<(), Memory>
        requires may { MayBeChecked claims.now }
        requires order { AreInOrder (conditions_of claims.now) self.old }
        requires unsettled { self.old.settled ≡ None }
        ensures keeps { OnOk result (Keeps (setting_of claims.now) (conditions_of claims.now) self.old self.new) }
        ensures order { OnOk result (AreInOrder (conditions_of claims.now) self.new) }
        ensures done { OnOk result (self.new.settled ≡ None → (self.new.blocks.items ≡ []) × (self.new.discharged ≡ self.old.discharged + length self.old.blocks.items)) }
        ensures reader { OnOk result (self.new.reader ≡ self.old.reader) }
        ensures left { OnOk result (self.new.discharged + length self.new.blocks.items ≡ self.old.discharged + length self.old.blocks.items) }
    {
        if self.blocks.is_empty() {
            return Ok(());
        }
        searchable_is_checkable();
        let end = self.discharged + self.blocks.len();
        let conditions = &claims.conditions[self.discharged..end];
        match check_all(
            crew.rt,
            crew.alloc,
            crew.gate,
            crew.workers,
            claims.components,
            claims.variables,
            conditions,
            &self.blocks,
        )? {
            None => {
                self.discharged = end;
                self.blocks.clear();
            }
            Some(i) => {
                let number = number_behind(self.discharged, i);
                self.settled = Some(Finding::Refused(number, Reason::NotValid));
            }
        }
        Ok(())
    }

    /// Checks the blocks that wait, where they are 64.
    fn discharge_full<R: Threads + Sync, G: Gate + Sync>(
        &mut self,
        crew: &Crew<'_, R, G>,
        claims: &Claims<'_>,
    ) -> Result<(), Memory>
        requires may { MayBeChecked claims.now }
        requires order { AreInOrder (conditions_of claims.now) self.old }
        requires unsettled { self.old.settled ≡ None }
        ensures keeps { OnOk result (Keeps (setting_of claims.now) (conditions_of claims.now) self.old self.new) }
        ensures order { OnOk result (AreInOrder (conditions_of claims.now) self.new) }
        ensures reader { OnOk result (self.new.reader ≡ self.old.reader) }
        ensures left { OnOk result (self.new.discharged + length self.new.blocks.items ≡ self.old.discharged + length self.old.blocks.items) }
    {
        if self.blocks.len() < BATCH {
            return Ok(());
        }
        self.discharge(crew, claims)
    }

    /// Ends at the next condition without a block, once those before it are checked.
    fn refuse<R: Threads + Sync, G: Gate + Sync>(
        &mut self,
        crew: &Crew<'_, R, G>,
        claims: &Claims<'_>,
        reason: Reason,
    ) -> Result<(), Memory>
        requires may { MayBeChecked claims.now }
        requires order { AreInOrder (conditions_of claims.now) self.old }
        requires unsettled { self.old.settled ≡ None }
        requires left { self.old.discharged + length self.old.blocks.items < length (conditions_of claims.now) }
        requires lacks { (k : Setting) (c : Implication) (rest : List ℕ) → MayFollow self.old.reader rest → block_tested k c (closed self.old.reader rest) ≡ Some reason }
        ensures keeps { OnOk result (Keeps (setting_of claims.now) (conditions_of claims.now) self.old self.new) }
        ensures order { OnOk result (AreInOrder (conditions_of claims.now) self.new) }
        ensures settled { OnOk result (IsSome self.new.settled) }
        ensures reader { OnOk result (self.new.reader ≡ self.old.reader) }
    {
        self.discharge(crew, claims)?;
        if self.settled.is_none() {
            let number = self.discharged as u32 + 1;
            self.settled = Some(Finding::Refused(number, reason));
        }
        Ok(())
    }

    /// Reads the next block, and checks those that wait where they are 64. Answers whether the text goes on.
    fn read_next<R: Threads + Sync, G: Gate + Sync>(
        &mut self,
        crew: &Crew<'_, R, G>,
        claims: &Claims<'_>,
    ) -> Result<bool, Memory>
        requires may { MayBeChecked claims.now }
        requires order { AreInOrder (conditions_of claims.now) self.old }
        requires unsettled { self.old.settled ≡ None }
        requires left { self.old.discharged + length self.old.blocks.items < length (conditions_of claims.now) }
        ensures keeps { OnOk result (Keeps (setting_of claims.now) (conditions_of claims.now) self.old self.new) }
        ensures order { OnOk result (AreInOrder (conditions_of claims.now) self.new) }
        ensures finished { OnOk result (self.new.reader.finished ≡ self.old.reader.finished) }
        ensures reached { OnOk result (reach self.new.reader ≤ reach self.old.reader) }
        ensures goes { IfOk result (λ goes. goes ≡ true → (self.new.settled ≡ None)
            × (self.new.discharged + length self.new.blocks.items ≡ self.old.discharged + length self.old.blocks.items + 1)) }
        ensures stops { IfOk result (λ goes. goes ≡ false → self.old.reader.finished ≡ true → IsSome self.new.settled) }
    {
        match next_turn(&mut self.reader)? {
            Turn::Taken(block) => self.blocks.push(block)?,
            Turn::Needs => return Ok(false),
            Turn::Lacks(reason) => {
                self.refuse(crew, claims, reason)?;
                return Ok(false);
            }
        }
        self.discharge_full(crew, claims)?;
        Ok(self.settled.is_none())
    }

    /// Takes the next block unread, where the text is the one that is followed.
    fn follow<R: Threads + Sync, G: Gate + Sync>(
        &mut self,
        crew: &Crew<'_, R, G>,
        claims: &Claims<'_>,
        follower: &mut Follower,
        is_open: bool,
    ) -> Result<Compared, Memory>
        requires may { MayBeChecked claims.now }
        requires order { AreInOrder (conditions_of claims.now) self.old }
        requires unsettled { self.old.settled ≡ None }
        requires left { self.old.discharged + length self.old.blocks.items < length (conditions_of claims.now) }
        requires follower { IsFollower claims.now follower.old }
        requires unended { is_open ≡ true → self.old.reader.finished ≡ false }
        ensures keeps { OnOk result (Keeps (setting_of claims.now) (conditions_of claims.now) self.old self.new) }
        ensures order { OnOk result (AreInOrder (conditions_of claims.now) self.new) }
        ensures unsettled { OnOk result (self.new.settled ≡ None) }
        ensures follower { OnOk result (IsFollower claims.now follower.new) }
        ensures finished { OnOk result (self.new.reader.finished ≡ self.old.reader.finished) }
        ensures reached { OnOk result (reach self.new.reader ≤ reach self.old.reader) }
        ensures left { IfOk result (IsLeft self.old self.new) }
    {
        if !self.blocks.is_empty() {
            return Ok(Compared::Other);
        }
        match follower.follow(claims, &mut self.reader, self.discharged, is_open)? {
            Compared::Same => {
                self.discharged += 1;
                crew.gate.decided(1, 0);
                Ok(Compared::Same)
            }
            Compared::Short => Ok(Compared::Short),
            Compared::Other => Ok(Compared::Other),
        }
    }

    /// Takes the next block. Answers whether the text goes on; `is_open` says that more of it may come.
    fn take_next<R: Threads + Sync, G: Gate + Sync>(
        &mut self,
        crew: &Crew<'_, R, G>,
        claims: &Claims<'_>,
        follower: &mut Follower,
        is_open: bool,
    ) -> Result<bool, Memory>
        requires may { MayBeChecked claims.now }
        requires order { AreInOrder (conditions_of claims.now) self.old }
        requires unsettled { self.old.settled ≡ None }
        requires left { self.old.discharged + length self.old.blocks.items < length (conditions_of claims.now) }
        requires follower { IsFollower claims.now follower.old }
        requires unended { is_open ≡ true → self.old.reader.finished ≡ false }
        ensures keeps { OnOk result (Keeps (setting_of claims.now) (conditions_of claims.now) self.old self.new) }
        ensures order { OnOk result (AreInOrder (conditions_of claims.now) self.new) }
        ensures follower { OnOk result (IsFollower claims.now follower.new) }
        ensures finished { OnOk result (self.new.reader.finished ≡ self.old.reader.finished) }
        ensures reached { OnOk result (reach self.new.reader ≤ reach self.old.reader) }
        ensures goes { IfOk result (λ goes. goes ≡ true → (self.new.settled ≡ None)
            × (self.new.discharged + length self.new.blocks.items ≡ self.old.discharged + length self.old.blocks.items + 1)) }
        ensures stops { IfOk result (λ goes. goes ≡ false → self.old.reader.finished ≡ true → IsSome self.new.settled) }
    {
        match self.follow(crew, claims, follower, is_open)? {
            Compared::Same => Ok(true),
            Compared::Short => Ok(false),
            Compared::Other => self.read_next(crew, claims),
        }
    }

    /// Takes blocks as far as the text goes. Answers whether all conditions are discharged; `is_open` says that more of it may come.
    fn take_blocks<R: Threads + Sync, G: Gate + Sync>(
        &mut self,
        crew: &Crew<'_, R, G>,
        claims: &Claims<'_>,
        follower: &mut Follower,
        is_open: bool,
    ) -> Result<bool, Memory>
        requires may { MayBeChecked claims.now }
        requires order { AreInOrder (conditions_of claims.now) self.old }
        requires unsettled { self.old.settled ≡ None }
        requires follower { IsFollower claims.now follower.old }
        requires unended { is_open ≡ true → self.old.reader.finished ≡ false }
        ensures keeps { OnOk result (Keeps (setting_of claims.now) (conditions_of claims.now) self.old self.new) }
        ensures order { OnOk result (AreInOrder (conditions_of claims.now) self.new) }
        ensures follower { OnOk result (IsFollower claims.now follower.new) }
        ensures finished { OnOk result (self.new.reader.finished ≡ self.old.reader.finished) }
        ensures reached { OnOk result (reach self.new.reader ≤ reach self.old.reader) }
        ensures all { IfOk result (λ all. all ≡ true → AreAllDischarged (conditions_of claims.now) self.new) }
        ensures settled { IfOk result (λ all. all ≡ false → self.old.reader.finished ≡ true → IsSome self.new.settled) }
    {
        while self.discharged + self.blocks.len() < claims.conditions.len() {
            if !self.take_next(crew, claims, follower, is_open)? {
                return Ok(false);
            }
        }
        self.discharge(crew, claims)?;
        Ok(self.settled.is_none())
    }

    /// Takes a further piece of the text.
    pub fn push<R: Threads + Sync, G: Gate + Sync>(
        &mut self,
        crew: &Crew<'_, R, G>,
        claims: &Claims<'_>,
        follower: &mut Follower,
        piece: &[u8],
    ) -> Result<(), Memory>
        requires may { MayBeChecked claims.now }
        requires order { AreInOrder (conditions_of claims.now) self.old }
        requires follower { IsFollower claims.now follower.old }
        requires unfinished { self.old.reader.finished ≡ false }
        requires room { reach self.old.reader + length piece.now < 2 ^ 64 }
        ensures same { OnOk result ((rest : List ℕ) → comes_to (setting_of claims.now) (conditions_of claims.now) self.new rest
            ≡ comes_to (setting_of claims.now) (conditions_of claims.now) self.old (piece.now ++ rest)) }
        ensures order { OnOk result (AreInOrder (conditions_of claims.now) self.new) }
        ensures follower { OnOk result (IsFollower claims.now follower.new) }
        ensures unfinished { OnOk result (self.new.reader.finished ≡ false) }
        ensures reached { OnOk result (reach self.new.reader ≤ reach self.old.reader + length piece.now) }
    {
        if self.settled.is_some() {
            return Ok(());
        }
        self.reader.push(piece)?;
        if !self.take_blocks(crew, claims, follower, true)? {
            return Ok(());
        }
        if claims.conditions.is_empty() {
            self.skip_front(crew.alloc, claims)?;
            return Ok(());
        }
        self.skip_blanks(claims);
        Ok(())
    }

    /// Where there are no conditions: drops blanks, and a header. What isn't blank settles all as soon as no header can come
    /// of it. It is looked at again once twice as much is held, so that a header in many pieces costs no more than its length.
    fn skip_front(&mut self, alloc: Global, claims: &Claims<'_>) -> Result<(), Memory>
        requires order { AreInOrder (conditions_of claims.now) self.old }
        requires all { AreAllDischarged (conditions_of claims.now) self.old }
        requires none { length (conditions_of claims.now) ≡ 0 }
        requires unfinished { self.old.reader.finished ≡ false }
        ensures keeps { OnOk result (Keeps (setting_of claims.now) (conditions_of claims.now) self.old self.new) }
        ensures order { OnOk result (AreInOrder (conditions_of claims.now) self.new) }
        ensures finished { OnOk result (self.new.reader.finished ≡ false) }
        ensures reached { OnOk result (reach self.new.reader ≤ reach self.old.reader) }
    {
        if self.reader.held() / 2 < self.looked {
            return Ok(());
        }
        match drop_front(&mut self.reader)? {
            None => {
                self.looked = self.reader.held();
                Ok(())
            }
            Some(place) => {
                let finding = Finding::Discharged(Some(place));
                self.reader = CertReader::new(alloc);
                self.settled = Some(finding);
                Ok(())
            }
        }
    }

    /// Drops blanks behind the last block. What isn't blank settles the rest.
    fn skip_blanks(&mut self, claims: &Claims<'_>)
        requires order { AreInOrder (conditions_of claims.now) self.old }
        requires all { AreAllDischarged (conditions_of claims.now) self.old }
        requires some { 0 < length (conditions_of claims.now) }
        ensures keeps { Keeps (setting_of claims.now) (conditions_of claims.now) self.old self.new }
        ensures order { AreInOrder (conditions_of claims.now) self.new }
        ensures finished { self.new.reader.finished ≡ self.old.reader.finished }
        ensures reached { reach self.new.reader ≤ reach self.old.reader }
    {
        if let Some(place) = drop_blanks(&mut self.reader) {
            self.settled = Some(Finding::Discharged(Some(place)));
        }
    }

    /// What all comes to, where the text ends here.
    pub fn finish<R: Threads + Sync, G: Gate + Sync>(
        &mut self,
        crew: &Crew<'_, R, G>,
        claims: &Claims<'_>,
        follower: &mut Follower,
    ) -> Result<Finding, Memory>
        requires may { MayBeChecked claims.now }
        requires order { AreInOrder (conditions_of claims.now) self.old }
        requires follower { IsFollower claims.now follower.old }
        ensures finding { IfOk result (λ f. f ≡ comes_to (setting_of claims.now) (conditions_of claims.now) self.old []) }
        ensures among { IfOk result (IsAmong (length (conditions_of claims.now))) }
    {
        if let Some(finding) = self.settled {
            return Ok(finding);
        }
        self.reader.finish();
        if self.take_blocks(crew, claims, follower, false)? {
            return Ok(Finding::Discharged(self.reader.trailing()));
        }
        match self.settled {
            Some(finding) => Ok(finding),
            None => unreachable!(),
        }
    }
}

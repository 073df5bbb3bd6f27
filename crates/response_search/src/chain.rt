//! Chains, in which items may wait in groups, or be measured by ranks.

use crate::cases::{joined_text, rest_behind};
use crate::items::{Around, Denied, Group, Trial, is_never, item_astray};
use crate::ranks::{Ranked, Ranks, difference, raised, row_form};
use control_cubes::{CubeFault, State};
use invariant_search::{ALWAYS, Allowed, Answer, Search};
use st_form::{Lin, SharedForm};
use st_memory::Memory;
use std::alloc::Global;
use transition_system::Fts;

/// An item: one of some cases, what the first of them says of places, and its helper or its group.
#[derive(Drop)]
pub struct ChainItem {
    pub(crate) base: Vec<u8>,
    pub(crate) cases: Vec<Vec<u8>>,
    pub(crate) trial: Trial,
}

/// A chain for a response: the item nearest to the goal first. Items of a group stand together. Where there are ranks they measure how far
/// an item is from the goal, and not its place.
#[derive(Drop)]
pub struct Chain {
    pub(crate) start: SharedForm,
    pub(crate) goal: Denied,
    pub items: Vec<ChainItem>,
    pub ranks: Option<Ranks>,
}

/// How far an item is from the goal, as ranked nets measure it.
#[derive(Clone, Copy, Debug, PartialEq, Eq)]
pub struct Measure {
    pub base: usize,
    pub delay: usize,
    pub top: usize,
}

/// What is nearer to the goal than the item with a number.
pub(crate) fn nearer<'c>(
    alloc: Global,
    items: &'c [ChainItem],
    number: usize,
) -> Result<Vec<&'c Denied>, Memory> {
    let mut out = Vec::with_capacity(alloc, items.len())?;
    for item in items.iter().take(number) {
        out.push(&item.trial.denied)?;
    }
    Ok(out)
}

/// The items of a group; none where there is no group.
fn members<'c>(
    alloc: Global,
    items: &'c [ChainItem],
    group: Option<Group>,
) -> Result<Vec<&'c Denied>, Memory> {
    let mut out = Vec::new(alloc);
    for item in items {
        if group.is_some() && item.trial.group == group {
            out.push(&item.trial.denied)?;
        }
    }
    Ok(out)
}

impl ChainItem {
    /// The number of its helper's transition.
    pub fn helper(&self) -> Option<u32> {
        self.trial.helper
    }

    /// The number of the compassionate transition that its group waits for.
    pub fn awaited(&self) -> Option<u32> {
        self.trial.group.map(|group| group.transition)
    }

    /// Whether it is in the same group as another item, or both are in none.
    pub fn is_beside(&self, other: &ChainItem) -> bool {
        self.trial.group == other.trial.group
    }

    /// The text of its formula.
    pub fn text(&self, alloc: Global) -> Result<Vec<u8>, Memory> {
        joined_text(alloc, &self.base, &self.cases)
    }

    /// Takes a case in that makes others superfluous which say more.
    pub(crate) fn take_case(&mut self, alloc: Global, text: &[u8]) -> Result<(), Memory> {
        let mut kept = Vec::with_capacity(alloc, self.cases.len())?;
        for case in &self.cases {
            if rest_behind(case, text).is_none() {
                kept.push(Vec::from_slice(alloc, case)?)?;
            }
        }
        kept.push(Vec::from_slice(alloc, text)?)?;
        self.cases = kept;
        Ok(())
    }
}

impl Chain {
    /// How far each item is from the goal. Items of a group have one base, above all tops of nearer ones; each other item is by one farther
    /// than these.
    pub fn measures(&self, alloc: Global) -> Result<Vec<Measure>, Memory> {
        let mut out = Vec::with_capacity(alloc, self.items.len())?;
        for (number, item) in self.items.iter().enumerate() {
            let mut base = number;
            let mut top = number;
            if item.trial.group.is_some() {
                base = self.first_beside(item);
                let size = self
                    .items
                    .iter()
                    .filter(|other| other.is_beside(item))
                    .count();
                top = base.saturating_add(size).saturating_sub(1);
            }
            let delay = number.saturating_sub(base);
            out.push(Measure { base, delay, top })?;
        }
        Ok(out)
    }

    /// The number of the first item that is in the same group.
    fn first_beside(&self, item: &ChainItem) -> usize {
        self.items
            .iter()
            .position(|other| other.is_beside(item))
            .unwrap_or(0)
    }

    /// That the wait is on and neither the goal nor an item holds.
    pub(crate) fn gap(&self, alloc: Global, start: &SharedForm) -> Result<Vec<SharedForm>, Memory> {
        let mut forms = Vec::new(alloc);
        forms.push(start.share()?)?;
        forms.push(self.goal.here.share()?)?;
        for item in &self.items {
            forms.push(item.trial.denied.here.share()?)?;
        }
        Ok(forms)
    }

    /// The lemmas because of which the wait begins at the goal or at an item; `None` where that isn't known.
    pub(crate) fn covered(
        &self,
        alloc: Global,
        search: &mut Search<'_>,
        start: &SharedForm,
        allowed: Allowed<'_>,
    ) -> Result<Option<Vec<u32>>, CubeFault> {
        match search.solve(alloc, self.gap(alloc, start)?, allowed)? {
            Answer::Never(lemmas) => Ok(Some(lemmas)),
            Answer::State(_) | Answer::Unknown(_) => Ok(None),
        }
    }

    /// A state in which the wait is on and neither the goal nor an item holds, as far as lemmas say.
    pub(crate) fn left(
        &self,
        alloc: Global,
        search: &mut Search<'_>,
        allowed: Allowed<'_>,
    ) -> Result<Option<State>, CubeFault> {
        let gap = self.gap(alloc, &self.start)?;
        match search.solve(alloc, gap, allowed)? {
            Answer::State(state) => Ok(Some(state)),
            Answer::Never(_) | Answer::Unknown(_) => Ok(None),
        }
    }

    /// Whether the item with a number meets its conditions by the lemmas that are allowed; those because of which it does are appended to
    /// those used.
    fn is_kept(
        &self,
        alloc: Global,
        search: &mut Search<'_>,
        system: &Fts,
        number: usize,
        allowed: Allowed<'_>,
        used: &mut Vec<u32>,
    ) -> Result<bool, CubeFault> {
        let Some(item) = self.items.get(number) else {
            return Ok(true);
        };
        let nearer = nearer(alloc, &self.items, number)?;
        let group = members(alloc, &self.items, item.trial.group)?;
        let around = Around {
            goal: &self.goal,
            nearer: &nearer,
            group: &group,
        };
        let found = item_astray(alloc, search, system, &item.trial, around, allowed, used)?;
        Ok(found.is_none())
    }

    /// Whether the wait begins at the goal or at an item, and the items from a number on are as their places say, by the lemmas that are
    /// allowed; those because of which it is so are appended to those used.
    fn is_kept_by_places(
        &self,
        alloc: Global,
        search: &mut Search<'_>,
        system: &Fts,
        first: usize,
        allowed: Allowed<'_>,
        used: &mut Vec<u32>,
    ) -> Result<bool, CubeFault> {
        let gap = self.gap(alloc, &self.start)?;
        if !is_never(alloc, search, gap, allowed, used)? {
            return Ok(false);
        }
        for number in first..self.items.len() {
            if !self.is_kept(alloc, search, system, number, allowed, used)? {
                return Ok(false);
            }
        }
        Ok(true)
    }

    /// Whether the wait begins at the goal or at an item, and the items from a number on are as they should be, by all lemmas that hold
    /// always.
    pub(crate) fn is_kept_from(
        &self,
        alloc: Global,
        search: &mut Search<'_>,
        system: &Fts,
        first: usize,
    ) -> Result<bool, CubeFault> {
        let allowed = Allowed::From(ALWAYS);
        let mut used = Vec::new(alloc);
        self.is_kept_by_places(alloc, search, system, first, allowed, &mut used)
    }

    /// In how many parts it is asked because of what this is a chain.
    pub fn parts(&self) -> usize {
        match &self.ranks {
            Some(_) => 1,
            None => self.items.len().saturating_add(1),
        }
    }

    /// Whether a part is as it should be: that the wait begins at the goal or at an item, or an item, or all where there are ranks.
    fn is_part_kept(
        &self,
        alloc: Global,
        search: &mut Search<'_>,
        system: &Fts,
        part: usize,
        allowed: Allowed<'_>,
        used: &mut Vec<u32>,
    ) -> Result<bool, CubeFault> {
        match (&self.ranks, part) {
            (Some(ranks), _) => {
                self.is_kept_by_ranks(alloc, search, system, ranks, allowed, used)
            }
            (None, 0) => {
                let gap = self.gap(alloc, &self.start)?;
                is_never(alloc, search, gap, allowed, used)
            }
            (None, part) => {
                let number = part.saturating_sub(1);
                self.is_kept(alloc, search, system, number, allowed, used)
            }
        }
    }

    /// The lemmas because of which the part with a number is as it should be; `None` where that isn't known with those that are allowed.
    pub fn part_kept_by(
        &self,
        alloc: Global,
        search: &mut Search<'_>,
        system: &Fts,
        part: usize,
        allowed: Allowed<'_>,
    ) -> Result<Option<Vec<u32>>, CubeFault> {
        let mut used = Vec::new(alloc);
        if !self.is_part_kept(alloc, search, system, part, allowed, &mut used)? {
            return Ok(None);
        }
        used.sort()?;
        used.dedup();
        Ok(Some(used))
    }

    /// Whether the items are a chain by ranks.
    fn is_kept_by_ranks(
        &self,
        alloc: Global,
        search: &mut Search<'_>,
        system: &Fts,
        ranks: &Ranks,
        allowed: Allowed<'_>,
        used: &mut Vec<u32>,
    ) -> Result<bool, CubeFault> {
        let ranked = Ranked {
            goal: &self.goal,
            items: &self.items,
            ranks: &ranks.of_items,
        };
        let covers = ranked.covers(alloc, search, &self.start, &ranks.bound, allowed, used)?;
        Ok(covers && ranked.are_kept(alloc, search, system, allowed, used)?)
    }

    /// The lemmas because of which the chain is one; `None` where that isn't known with those that are allowed.
    pub fn kept_by(
        &self,
        alloc: Global,
        search: &mut Search<'_>,
        system: &Fts,
        allowed: Allowed<'_>,
    ) -> Result<Option<Vec<u32>>, CubeFault> {
        let mut used = Vec::new(alloc);
        let kept = match &self.ranks {
            Some(ranks) => {
                self.is_kept_by_ranks(alloc, search, system, ranks, allowed, &mut used)?
            }
            None => self.is_kept_by_places(alloc, search, system, 0, allowed, &mut used)?,
        };
        if !kept {
            return Ok(None);
        }
        used.sort()?;
        used.dedup();
        Ok(Some(used))
    }

    /// Its bound: the number of its items, or that of its ranks.
    pub fn bound(&self, alloc: Global) -> Result<Lin, CubeFault> {
        match &self.ranks {
            Some(ranks) => Ok(ranks.bound.copy(alloc)?),
            None => {
                let count = i128::try_from(self.items.len()).unwrap_or(i128::MAX);
                Ok(Lin::constant_of(alloc, count)?)
            }
        }
    }

    /// Whether its bound is at most so much wherever the wait begins.
    pub fn is_within(
        &self,
        alloc: Global,
        search: &mut Search<'_>,
        most: &Lin,
    ) -> Result<bool, CubeFault> {
        let over = raised(alloc, &difference(alloc, &self.bound(alloc)?, most)?, -1)?;
        let mut forms = Vec::new(alloc);
        forms.push(self.start.share()?)?;
        forms.push(row_form(alloc, over)?)?;
        let mut used = Vec::new(alloc);
        is_never(alloc, search, forms, Allowed::From(ALWAYS), &mut used)
    }
}

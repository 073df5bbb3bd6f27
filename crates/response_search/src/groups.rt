//! Groups: items that wait for a compassionate transition together (the rule for responses under compassion of Manna and Pnueli, Completing
//! the temporal picture, 1991).
//!
//! A group begins at a region, where its transition is waited for: each step of another leaves the region as it is, or leads to the goal or
//! to something nearer, and the transition itself leads to one of these. Items are added until they are all of the region. Wherever the
//! transition is enabled another step may lead anywhere in the region, since it is enabled again and again then.

use crate::bases::Base;
use crate::chain::nearer;
use crate::group_bases::bases_in;
use crate::items::{Around, Denied, Group, Trial, astray_by_steps};
use crate::saturation::Saturation;
use control_cubes::CubeFault;
use invariant_search::{ALWAYS, Allowed, Outcome, Search, Unobserved};
use st_form::{Form, SharedForm};
use std::alloc::Global;
use std::collections::BTreeMap;

/// Of how many groups it is asked if what they leave never comes.
const MOST: usize = 4;

/// A group that grows: its region, its bases, and the number of its first item.
#[derive(Drop)]
pub(crate) struct Opened {
    pub(crate) group: Group,
    pub(crate) region: SharedForm,
    pub(crate) denied: Denied,
    pub(crate) bases: Vec<Base>,
    first: usize,
}

impl Saturation<'_> {
    /// Whether each step leaves a region, given as an item with the transition that it waits for as its helper, as it should.
    fn may_wait(
        &self,
        alloc: Global,
        search: &mut Search<'_>,
        trial: &Trial,
    ) -> Result<bool, CubeFault> {
        if !self.adds(alloc, search, &trial.form)? {
            return Ok(false);
        }
        let nearer = nearer(alloc, &self.chain.items, self.chain.items.len())?;
        let around = Around {
            goal: &self.chain.goal,
            nearer: &nearer,
            group: &[],
        };
        let mut used = Vec::new(alloc);
        let system = self.setting.system;
        let allowed = Allowed::From(ALWAYS);
        let found = astray_by_steps(alloc, search, system, trial, around, allowed, &mut used, 0)?;
        Ok(found.is_none())
    }

    /// A group at a region, which is given as an item too.
    fn opened_at(
        &self,
        alloc: Global,
        search: &Search<'_>,
        region: &Base,
        trial: Trial,
    ) -> Result<Opened, CubeFault> {
        let transition = trial.helper.unwrap_or(u32::MAX);
        let bases = bases_in(alloc, self.setting, search, &region.said, transition)?;
        Ok(Opened {
            group: Group {
                transition,
                number: self.groups,
            },
            region: trial.form,
            denied: trial.denied,
            bases,
            first: self.chain.items.len(),
        })
    }

    /// Appends a group at the region with a number, if it can wait there.
    fn push_opened(
        &self,
        alloc: Global,
        search: &mut Search<'_>,
        number: usize,
        out: &mut Vec<Opened>,
    ) -> Result<(), CubeFault> {
        let Some(region) = self.regions.get(number) else {
            return Ok(());
        };
        let form = region.said.form.share()?;
        let trial = Trial::new(alloc, search, form, region.helper, None)?;
        if self.may_wait(alloc, search, &trial)? {
            out.push(self.opened_at(alloc, search, region, trial)?)?;
        }
        Ok(())
    }

    /// Opens a group at the region with a number, if it can wait there.
    fn is_opened(
        &mut self,
        alloc: Global,
        search: &mut Search<'_>,
        number: usize,
    ) -> Result<bool, CubeFault> {
        let mut found = Vec::new(alloc);
        self.push_opened(alloc, search, number, &mut found)?;
        if found.is_empty() {
            return Ok(false);
        }
        self.groups = self.groups.saturating_add(1);
        self.failed = BTreeMap::new(alloc);
        self.opened.append(&mut found)?;
        Ok(true)
    }

    /// Opens a group at the next region at which one can wait.
    pub(crate) fn opens(
        &mut self,
        alloc: Global,
        search: &mut Search<'_>,
    ) -> Result<bool, CubeFault> {
        for number in self.tried..self.regions.len() {
            self.tried = number.saturating_add(1);
            if self.is_opened(alloc, search, number)? {
                return Ok(true);
            }
        }
        Ok(false)
    }

    /// Whether what the group that grows leaves of its region never comes, asked as a goal of invariance.
    pub(crate) fn is_filled(
        &self,
        alloc: Global,
        search: &mut Search<'_>,
    ) -> Result<bool, CubeFault> {
        let Some(opened) = self.opened.first() else {
            return Ok(false);
        };
        if opened.group.number >= MOST || opened.first >= self.chain.items.len() {
            return Ok(false);
        }
        let parts = self.settled_form(alloc, opened.region.get())?;
        let outcome = search.ic3(alloc, &Form::Or(parts), &Unobserved)?;
        search.drop_bounded();
        Ok(matches!(outcome, Outcome::Inductive))
    }

    /// Gives the group up that grows.
    pub(crate) fn give_up(&mut self, alloc: Global) {
        if let Some(opened) = self.opened.pop() {
            self.chain.items.truncate(opened.first);
            self.failed = BTreeMap::new(alloc);
        }
    }

    /// Closes the group that grows, if its items are all of its region.
    pub(crate) fn closes(
        &mut self,
        alloc: Global,
        search: &mut Search<'_>,
    ) -> Result<bool, CubeFault> {
        let Some(opened) = self.opened.first() else {
            return Ok(true);
        };
        let allowed = Allowed::From(ALWAYS);
        let covered = self.chain.covered(alloc, search, &opened.region, allowed)?;
        if covered.is_some() {
            self.opened.clear();
            self.failed = BTreeMap::new(alloc);
        }
        Ok(covered.is_some())
    }
}

//! A chain that grows: valid items are added until the wait can begin nowhere else.
//!
//! Candidates that are near to where the wait begins come first, and fewer literals before more. What fails by a step to some state is left
//! alone until that state is in the chain, and the steps that were asked of before it aren't asked of again.

use crate::bases::{Base, Setting};
use crate::candidates::{Candidate, Width, widths};
use crate::chain::{Chain, ChainItem, nearer};
use crate::groups::Opened;
use crate::items::{Around, Astray, Group, Trial, astray_by_steps, item_astray};
use crate::said::{Said, both_forms};
use crate::witnesses::Witness;
use control_cubes::{CubeFault, State};
use invariant_search::{ALWAYS, Allowed, Answer, Search};
use st_form::{Form, SharedForm};
use st_memory::Memory;
use std::alloc::Global;
use std::collections::BTreeMap;

/// A chain that grows.
#[derive(Drop)]
pub(crate) struct Saturation<'s> {
    pub(crate) setting: Setting<'s>,
    pub(crate) start: &'s Form,
    pub(crate) goal: &'s Form,
    /// The bases of items that are in no group.
    pub(crate) bases: Vec<Base>,
    /// Where groups may wait, and for what: the helpers of these are compassionate.
    pub(crate) regions: Vec<Base>,
    pub(crate) literals: Vec<Said>,
    pub(crate) chain: Chain,
    /// What failed, and how.
    pub(crate) failed: BTreeMap<Candidate, Failure>,
    /// Of each base that is in no group the numbers of the states to which runs come in which it holds.
    pub(crate) holding: Vec<Vec<usize>>,
    /// Of each state to which runs come whether the goal or the chain holds there.
    pub(crate) settled: Vec<bool>,
    /// Whether it was asked if what is left never comes.
    pub(crate) asked: bool,
    /// The group that grows, if one does.
    pub(crate) opened: Vec<Opened>,
    /// How many regions were tried since the last item was added that is in no group.
    pub(crate) tried: usize,
    /// How many groups were opened.
    pub(crate) groups: usize,
}

/// How a candidate failed: for good, or until a state is in the chain. Steps below a number don't lead astray from it.
#[derive(Drop)]
pub(crate) struct Failure {
    until: Option<State>,
    passed: usize,
}

/// A candidate as an item: its text without what it says of variables, its text with it, and what is to be checked.
#[derive(Drop)]
struct Proposed {
    base: Vec<u8>,
    text: Vec<u8>,
    trial: Trial,
}

impl Saturation<'_> {
    /// The group that grows.
    pub(crate) fn group(&self) -> Option<Group> {
        self.opened.first().map(|opened| opened.group)
    }

    /// The bases that are tried now.
    fn bases(&self) -> &[Base] {
        match self.opened.first() {
            Some(opened) => &opened.bases,
            None => &self.bases,
        }
    }

    /// Appends the literal with a number.
    fn push_literal(
        &self,
        alloc: Global,
        number: usize,
        out: &mut Vec<Said>,
    ) -> Result<(), Memory> {
        if let Some(literal) = self.literals.get(number) {
            let said = match out.pop() {
                Some(before) => before.and(alloc, literal)?,
                None => literal.copy(alloc)?,
            };
            out.push(said)?;
        }
        Ok(())
    }

    /// What a candidate says beside its base, as one; nothing where that is nothing.
    pub(crate) fn tail(&self, alloc: Global, width: Width) -> Result<Vec<Said>, Memory> {
        let mut out = Vec::new(alloc);
        match width {
            Width::None => {}
            Width::One(one) => self.push_literal(alloc, one, &mut out)?,
            Width::Two(one, other) => {
                self.push_literal(alloc, one, &mut out)?;
                self.push_literal(alloc, other, &mut out)?;
            }
        }
        Ok(out)
    }

    /// What a candidate says: its base, and beside it so many literals.
    fn said(&self, alloc: Global, base: &Said, width: Width) -> Result<Said, Memory> {
        match self.tail(alloc, width)?.first() {
            Some(tail) => base.and(alloc, tail),
            None => base.copy(alloc),
        }
    }

    /// Whether a state is in the goal or in the chain.
    pub(crate) fn has(&self, search: &Search<'_>, state: &State) -> bool {
        let layout = search.layout();
        state.satisfies(layout, self.goal)
            || self
                .chain
                .items
                .iter()
                .any(|item| state.satisfies(layout, item.trial.form.get()))
    }

    /// Whether a candidate that failed is to be left alone.
    fn is_left_alone(&self, search: &Search<'_>, candidate: Candidate) -> bool {
        match self.failed.get(&candidate) {
            None => false,
            Some(failure) => match &failure.until {
                Some(state) => !self.has(search, state),
                None => true,
            },
        }
    }

    /// Whether some state is in the formula and neither in the goal nor in the chain.
    pub(crate) fn adds(
        &self,
        alloc: Global,
        search: &mut Search<'_>,
        form: &SharedForm,
    ) -> Result<bool, CubeFault> {
        let gap = self.chain.gap(alloc, form)?;
        let answer = search.solve(alloc, gap, Allowed::From(ALWAYS))?;
        Ok(matches!(answer, Answer::State(_)))
    }

    /// How many steps, by number, are known not to lead astray from a candidate.
    fn passed(&self, candidate: Candidate) -> usize {
        match self.failed.get(&candidate) {
            Some(failure) => failure.passed,
            None => 0,
        }
    }

    /// Checks an item behind the first ones of the chain, where steps below a number are known not to lead astray.
    fn checked(
        &self,
        alloc: Global,
        search: &mut Search<'_>,
        trial: &Trial,
        number: usize,
        passed: usize,
    ) -> Result<Option<Astray>, CubeFault> {
        let nearer = nearer(alloc, &self.chain.items, number)?;
        let mut group = Vec::new(alloc);
        for opened in &self.opened {
            group.push(&opened.denied)?;
        }
        let around = Around {
            goal: &self.chain.goal,
            nearer: &nearer,
            group: &group,
        };
        let mut used = Vec::new(alloc);
        let system = self.setting.system;
        let allowed = Allowed::From(ALWAYS);
        if passed == 0 {
            item_astray(alloc, search, system, trial, around, allowed, &mut used)
        } else {
            astray_by_steps(
                alloc, search, system, trial, around, allowed, &mut used, passed,
            )
        }
    }

    /// What a candidate says, where that is known to add something to the chain, or one question says it.
    fn adding(
        &self,
        alloc: Global,
        search: &mut Search<'_>,
        candidate: Candidate,
        adds: bool,
        out: &mut Vec<Said>,
    ) -> Result<(), CubeFault> {
        if let Some(base) = self.bases().get(candidate.base) {
            let said = self.said(alloc, &base.said, candidate.width)?;
            if adds || self.adds(alloc, search, &said.form)? {
                out.push(said)?;
            }
        }
        Ok(())
    }

    /// A candidate as an item, of what it says; nothing where its base has no number.
    fn proposed(
        &self,
        alloc: Global,
        search: &Search<'_>,
        candidate: Candidate,
        said: Said,
        out: &mut Vec<Proposed>,
    ) -> Result<(), CubeFault> {
        if let Some(base) = self.bases().get(candidate.base) {
            let trial = Trial::new(alloc, search, said.form, base.helper, self.group())?;
            out.push(Proposed {
                base: Vec::from_slice(alloc, &base.said.text)?,
                text: said.text,
                trial,
            })?;
        }
        Ok(())
    }

    /// How an item fails that would be the farthest, if it does.
    fn failure(
        &self,
        alloc: Global,
        search: &mut Search<'_>,
        trial: &Trial,
        passed: usize,
    ) -> Result<Option<Failure>, CubeFault> {
        let farthest = self.chain.items.len();
        match self.checked(alloc, search, trial, farthest, passed)? {
            Some(astray) => Ok(Some(Failure {
                until: state_behind(alloc, search, &astray)?,
                passed: astray.step as usize,
            })),
            None => Ok(None),
        }
    }

    /// Whether the item with a number has the helper and the group of another.
    fn may_join(&self, number: usize, proposed: &Proposed) -> bool {
        match self.chain.items.get(number) {
            Some(item) => {
                item.trial.helper == proposed.trial.helper
                    && item.trial.group == proposed.trial.group
            }
            None => false,
        }
    }

    /// The item with a number and another as one.
    fn joint(
        &self,
        alloc: Global,
        search: &Search<'_>,
        number: usize,
        proposed: &Proposed,
        out: &mut Vec<Trial>,
    ) -> Result<(), CubeFault> {
        if let Some(item) = self.chain.items.get(number) {
            let one = item.trial.form.get();
            let parts = both_forms(alloc, one, proposed.trial.form.get())?;
            let form = SharedForm::new(alloc, Form::Or(parts), 0)?;
            let (helper, group) = (proposed.trial.helper, proposed.trial.group);
            out.push(Trial::new(alloc, search, form, helper, group)?)?;
        }
        Ok(())
    }

    /// Joins an item to the one with a number, where both together are valid in its place.
    fn is_joined_to(
        &mut self,
        alloc: Global,
        search: &mut Search<'_>,
        number: usize,
        proposed: &Proposed,
    ) -> Result<bool, CubeFault> {
        let mut joint = Vec::new(alloc);
        self.joint(alloc, search, number, proposed, &mut joint)?;
        for trial in joint {
            let found = self.checked(alloc, search, &trial, number, 0)?;
            if found.is_none()
                && let Some(item) = self.chain.items.get_mut(number)
            {
                item.take_case(alloc, &proposed.text)?;
                item.trial = trial;
                return Ok(true);
            }
        }
        Ok(false)
    }

    /// Joins an item to an earlier one, where that can be done.
    fn is_joined(
        &mut self,
        alloc: Global,
        search: &mut Search<'_>,
        proposed: &Proposed,
    ) -> Result<bool, CubeFault> {
        for number in 0..self.chain.items.len() {
            if self.may_join(number, proposed)
                && self.is_joined_to(alloc, search, number, proposed)?
            {
                return Ok(true);
            }
        }
        Ok(false)
    }

    /// Adds an item that is valid.
    fn add(
        &mut self,
        alloc: Global,
        search: &mut Search<'_>,
        proposed: Proposed,
    ) -> Result<(), CubeFault> {
        if !self.is_joined(alloc, search, &proposed)? {
            let cases = vec![in alloc; proposed.text]?;
            self.chain.items.push(ChainItem {
                base: proposed.base,
                cases,
                trial: proposed.trial,
            })?;
        }
        Ok(())
    }

    /// Adds a candidate, if what it says is valid as an item.
    fn is_taken(
        &mut self,
        alloc: Global,
        search: &mut Search<'_>,
        candidate: Candidate,
        said: Said,
    ) -> Result<bool, CubeFault> {
        let mut all = Vec::new(alloc);
        self.proposed(alloc, search, candidate, said, &mut all)?;
        for proposed in all {
            let passed = self.passed(candidate);
            let failure = self.failure(alloc, search, &proposed.trial, passed)?;
            let Some(failure) = failure else {
                self.add(alloc, search, proposed)?;
                self.see_settled(alloc, search)?;
                return Ok(true);
            };
            self.failed.insert(candidate, failure)?;
        }
        Ok(false)
    }

    /// Leaves a candidate alone, for good or until a state is in the chain.
    fn leave(&mut self, candidate: Candidate, until: Option<State>) -> Result<bool, Memory> {
        let passed = self.passed(candidate);
        self.failed.insert(candidate, Failure { until, passed })?;
        Ok(false)
    }

    /// Adds a candidate, if it adds something and is valid. Nothing is asked where states to which runs come say that it isn't.
    fn is_added(
        &mut self,
        alloc: Global,
        search: &mut Search<'_>,
        candidate: Candidate,
    ) -> Result<bool, CubeFault> {
        match self.witness(alloc, search, candidate)? {
            Witness::Idle => Ok(self.leave(candidate, None)?),
            Witness::Astray(number) => {
                let until = state_at(alloc, search, number)?;
                Ok(self.leave(candidate, until)?)
            }
            Witness::Fits(adds) => self.is_added_if_valid(alloc, search, candidate, adds),
        }
    }

    /// Adds a candidate, if it is valid and adds something, which may be known.
    fn is_added_if_valid(
        &mut self,
        alloc: Global,
        search: &mut Search<'_>,
        candidate: Candidate,
        adds: bool,
    ) -> Result<bool, CubeFault> {
        let mut adding = Vec::new(alloc);
        self.adding(alloc, search, candidate, adds, &mut adding)?;
        match adding.pop() {
            Some(said) => self.is_taken(alloc, search, candidate, said),
            None => Ok(self.leave(candidate, None)?),
        }
    }

    /// Adds the first candidate of a base that can be added.
    fn grows_at(
        &mut self,
        alloc: Global,
        search: &mut Search<'_>,
        base: usize,
        widths: &[Width],
    ) -> Result<bool, CubeFault> {
        for width in widths {
            if search.is_spent() {
                return Ok(false);
            }
            let candidate = Candidate {
                base,
                width: *width,
            };
            if !self.is_left_alone(search, candidate) && self.is_added(alloc, search, candidate)? {
                return Ok(true);
            }
        }
        Ok(false)
    }

    /// Whether the base with a number is near, or isn't, as is asked.
    fn is_of(&self, base: usize, near: bool) -> bool {
        match self.bases().get(base) {
            Some(found) => found.near == near,
            None => false,
        }
    }

    /// Adds the first candidate with so many literals that can be added.
    fn grows_by(
        &mut self,
        alloc: Global,
        search: &mut Search<'_>,
        near: bool,
        taken: usize,
    ) -> Result<bool, CubeFault> {
        let widths = widths(alloc, taken, self.literals.len())?;
        for base in 0..self.bases().len() {
            if self.is_of(base, near) && self.grows_at(alloc, search, base, &widths)? {
                return Ok(true);
            }
        }
        Ok(false)
    }

    /// Adds the first candidate of these rounds that can be added.
    pub(crate) fn grows(
        &mut self,
        alloc: Global,
        search: &mut Search<'_>,
        rounds: &[(bool, usize)],
    ) -> Result<bool, CubeFault> {
        for (near, taken) in rounds {
            if self.grows_by(alloc, search, *near, *taken)? {
                return Ok(true);
            }
        }
        Ok(false)
    }
}

/// The state to which what was found leads astray, if one was shown.
fn state_behind(
    alloc: Global,
    search: &Search<'_>,
    astray: &Astray,
) -> Result<Option<State>, CubeFault> {
    match &astray.from {
        Some(state) => search.state_behind(alloc, state, astray.step),
        None => Ok(None),
    }
}

/// The state with a number to which runs come.
fn state_at(alloc: Global, search: &Search<'_>, number: usize) -> Result<Option<State>, Memory> {
    match search.reach().states().get(number) {
        Some(state) => Ok(Some(state.copy(alloc)?)),
        None => Ok(None),
    }
}

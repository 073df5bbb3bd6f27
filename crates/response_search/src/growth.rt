//! The search for a chain: items and groups are added in turn, until the wait can begin nowhere else.
//!
//! Before pairs of literals are tried, groups are, and loops over counters, and then what is left may be something that never comes, which is
//! a goal of invariance.

use crate::bases::{Setting, Wait, bases};
use crate::candidates::{NARROW, WIDE};
use crate::chain::Chain;
use crate::items::Denied;
use crate::literals::literals;
use crate::loops::take_loop;
use crate::saturation::Saturation;
use crate::witnesses::states_of_all;
use control_cubes::{CubeFault, State, negation};
use invariant_search::{ALWAYS, Allowed, Outcome, Search, Unobserved};
use st_form::{Form, SharedForm, Variable};
use st_memory::Memory;
use std::alloc::Global;
use std::collections::BTreeMap;
use transition_system::Fairness;

/// The most items.
const MOST: usize = 60;

/// The most items of a chain that is looked for before much is learned.
const SHORT: usize = 2;

/// The most rounds: in each an item or a group is added, or a group is given up.
const ROUNDS: usize = 400;

/// What is found for a response.
#[derive(Drop)]
pub enum Sought {
    Chain(Chain),
    /// Nothing; with a state in which the wait is on and nothing that was found helps, if one was shown.
    Left(Option<State>),
}

/// What came of a round.
#[derive(Clone, Copy, PartialEq, Eq)]
enum Round {
    /// Something was added, or given up.
    On,
    /// The wait begins nowhere else.
    Done,
    /// There is nothing to add.
    Over,
}

impl Saturation<'_> {
    /// That a formula doesn't hold, or the goal or an item does.
    pub(crate) fn settled_form(&self, alloc: Global, start: &Form) -> Result<Vec<Form>, Memory> {
        let mut parts = Vec::new(alloc);
        parts.push(negation(alloc, start.copy(alloc)?)?)?;
        parts.push(self.goal.copy(alloc)?)?;
        for item in &self.chain.items {
            parts.push(item.trial.form.get().copy(alloc)?)?;
        }
        Ok(parts)
    }

    /// Whether what the chain leaves never comes, asked once as a goal of invariance.
    fn never_comes(&mut self, alloc: Global, search: &mut Search<'_>) -> Result<bool, CubeFault> {
        if self.asked || self.chain.items.is_empty() {
            return Ok(false);
        }
        self.asked = true;
        let parts = self.settled_form(alloc, self.start)?;
        let outcome = search.ic3(alloc, &Form::Or(parts), &Unobserved)?;
        search.drop_bounded();
        match outcome {
            Outcome::Inductive => self.is_covered(alloc, search),
            Outcome::Refuted(_) | Outcome::Unknown { .. } => Ok(false),
        }
    }

    fn is_covered(&self, alloc: Global, search: &mut Search<'_>) -> Result<bool, CubeFault> {
        let allowed = Allowed::From(ALWAYS);
        let covered = self
            .chain
            .covered(alloc, search, &self.chain.start, allowed)?;
        Ok(covered.is_some())
    }

    /// Sees what is left where an item was added.
    fn settle(&mut self, alloc: Global, search: &mut Search<'_>) -> Result<Round, CubeFault> {
        if self.chain.items.len() > MOST {
            return Ok(Round::Over);
        }
        if !self.closes(alloc, search)? {
            return Ok(Round::On);
        }
        self.tried = 0;
        if self.is_covered(alloc, search)? {
            Ok(Round::Done)
        } else {
            Ok(Round::On)
        }
    }

    /// Adds an item, or opens a group where none can be added, or gives one up. Pairs of literals are tried if that is asked.
    fn round(
        &mut self,
        alloc: Global,
        search: &mut Search<'_>,
        wide: bool,
    ) -> Result<Round, CubeFault> {
        if self.grows(alloc, search, &NARROW)? {
            return self.settle(alloc, search);
        }
        if self.group().is_some() {
            return self.end_group(alloc, search);
        }
        if self.opens(alloc, search)? {
            return Ok(Round::On);
        }
        if wide {
            self.last_resort(alloc, search)
        } else {
            Ok(Round::Over)
        }
    }

    /// Closes a group to which nothing can be added, if what it leaves never comes; else gives it up.
    fn end_group(&mut self, alloc: Global, search: &mut Search<'_>) -> Result<Round, CubeFault> {
        if self.is_filled(alloc, search)? && self.closes(alloc, search)? {
            return self.settle(alloc, search);
        }
        self.give_up(alloc);
        self.see_settled(alloc, search)?;
        Ok(Round::On)
    }

    /// What is tried where nothing else can be added: that the rest never comes, and pairs of literals.
    fn last_resort(&mut self, alloc: Global, search: &mut Search<'_>) -> Result<Round, CubeFault> {
        if self.never_comes(alloc, search)? {
            return Ok(Round::Done);
        }
        if self.grows(alloc, search, &WIDE)? {
            return self.settle(alloc, search);
        }
        Ok(Round::Over)
    }

    /// Whether rounds come to a chain.
    fn is_grown(
        &mut self,
        alloc: Global,
        search: &mut Search<'_>,
        wide: bool,
    ) -> Result<bool, CubeFault> {
        for _ in 0..ROUNDS {
            match self.round(alloc, search, wide)? {
                Round::On => {}
                Round::Done => return Ok(true),
                Round::Over => return Ok(false),
            }
        }
        Ok(false)
    }
}

/// Whether a chain is still one without an item that stood at a place. Those nearer to the goal are as they were.
fn is_still_one(
    alloc: Global,
    search: &mut Search<'_>,
    setting: Setting<'_>,
    chain: &Chain,
    place: usize,
) -> Result<bool, CubeFault> {
    if chain.is_refuted(alloc, search, place)? {
        return Ok(false);
    }
    chain.is_kept_from(alloc, search, setting.system, place)
}

/// Leaves the item with a number out of a chain that is one without it.
fn prune(
    alloc: Global,
    search: &mut Search<'_>,
    setting: Setting<'_>,
    chain: &mut Chain,
    number: usize,
) -> Result<(), CubeFault> {
    if number >= chain.items.len() {
        return Ok(());
    }
    let item = chain.items.remove(number);
    if !is_still_one(alloc, search, setting, chain, number)? && number <= chain.items.len() {
        chain.items.insert(number, item)?;
    }
    Ok(())
}

/// Leaves the items out, from the farthest on, without which a chain is one.
fn prune_all(
    alloc: Global,
    search: &mut Search<'_>,
    setting: Setting<'_>,
    chain: &mut Chain,
) -> Result<(), CubeFault> {
    for number in (0..chain.items.len()).rev() {
        prune(alloc, search, setting, chain, number)?;
    }
    Ok(())
}

/// A chain without items for a response.
fn empty_chain(
    alloc: Global,
    search: &Search<'_>,
    start: &Form,
    goal: &Form,
) -> Result<Chain, CubeFault> {
    Ok(Chain {
        start: SharedForm::new(alloc, start.copy(alloc)?, 0)?,
        goal: Denied::of(alloc, search, goal)?,
        items: Vec::new(alloc),
        ranks: None,
    })
}

/// A search for a chain that has found nothing.
fn begun<'s>(
    alloc: Global,
    search: &Search<'_>,
    setting: Setting<'s>,
    variables: &[Variable],
    wait: &Wait,
    start: &'s Form,
    goal: &'s Form,
) -> Result<Saturation<'s>, CubeFault> {
    let literals = literals(alloc, setting.writer, variables, search.pool())?;
    let just = bases(alloc, setting, search, wait, Fairness::Just)?;
    let regions = bases(alloc, setting, search, wait, Fairness::Compassionate)?;
    let chain = empty_chain(alloc, search, start, goal)?;
    let holding = states_of_all(alloc, search, &just)?;
    let mut saturation = Saturation {
        setting,
        start,
        goal,
        bases: just,
        regions,
        literals,
        chain,
        failed: BTreeMap::new(alloc),
        holding,
        settled: Vec::new(alloc),
        asked: false,
        opened: Vec::new(alloc),
        tried: 0,
        groups: 0,
    };
    saturation.see_settled(alloc, search)?;
    Ok(saturation)
}

/// A chain of one item or two for the response from `start` to `goal`, if there is one by the lemmas of the search that hold always.
pub fn short_chain_for(
    alloc: Global,
    search: &mut Search<'_>,
    setting: Setting<'_>,
    variables: &[Variable],
    start: &Form,
    goal: &Form,
) -> Result<Option<Chain>, CubeFault> {
    let wait = Wait::of(alloc, search, start)?;
    let mut saturation = begun(alloc, search, setting, variables, &wait, start, goal)?;
    for _ in 0..SHORT {
        if !saturation.grows(alloc, search, &NARROW)? {
            return Ok(None);
        }
        if saturation.is_covered(alloc, search)? {
            let mut chain = saturation.chain;
            prune_all(alloc, search, setting, &mut chain)?;
            return Ok(Some(chain));
        }
    }
    Ok(None)
}

/// A chain for the response from `start` to `goal`, by the lemmas of the search that hold always, to which it may add some.
pub fn chain_for(
    alloc: Global,
    search: &mut Search<'_>,
    setting: Setting<'_>,
    variables: &[Variable],
    start: &Form,
    goal: &Form,
) -> Result<Sought, CubeFault> {
    let wait = Wait::of(alloc, search, start)?;
    let mut saturation = begun(alloc, search, setting, variables, &wait, start, goal)?;
    let mut grown = saturation.is_grown(alloc, search, false)?;
    if !grown {
        let mut looping = empty_chain(alloc, search, start, goal)?;
        if take_loop(alloc, search, setting, variables, &wait, &mut looping)? {
            return Ok(Sought::Chain(looping));
        }
        grown = saturation.is_grown(alloc, search, true)?;
    }
    let mut chain = saturation.chain;
    if grown {
        prune_all(alloc, search, setting, &mut chain)?;
        return Ok(Sought::Chain(chain));
    }
    let left = chain.left(alloc, search, Allowed::From(ALWAYS))?;
    Ok(Sought::Left(left))
}

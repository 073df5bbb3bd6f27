//! Modes that were asked whether they lead into a cube from outside it, and don't. They may answer what is asked of other cubes without a
//! search.
//!
//! A larger cube that is tried differs from the last one in a literal, and most modes need the same before them as they did: those that
//! move the component that is freed, or assign the variable that isn't spoken of any longer. And a cube that is closed at one level is asked
//! about again at the next, where mostly the same lemmas hold.

use crate::entering::{are_among, may_enter};
use crate::lemma::{Allowed, Lemma, are_allowed};
use crate::literals::{Literals, literals_before};
use crate::setting::Setting;
use control_cubes::{Cube, CubeFault};
use st_memory::Memory;
use std::alloc::Global;
use std::collections::VecDeque;

/// As many are kept of each mode.
const MOST: usize = 100;

/// What is asked of a mode: that it leads into a cube from outside it.
#[derive(Drop)]
pub(crate) struct Way {
    pub(crate) number: usize,
    literals: Literals,
    /// The cube, where the mode starts at its places: else it leads into the cube from outside alone.
    around: Option<Cube>,
    /// Whether first states of runs alone are asked for.
    first: bool,
}

/// What is asked of the mode with a number; `None` where it doesn't lead into the cube from outside it, by its places, by what it changes,
/// or as literals contradict each other.
pub(crate) fn way_into(
    alloc: Global,
    setting: &Setting<'_>,
    cube: &Cube,
    first: bool,
    number: usize,
) -> Result<Option<Way>, CubeFault> {
    let Some(step) = setting.steps.get(number) else {
        return Ok(None);
    };
    if !may_enter(cube, step) {
        return Ok(None);
    }
    let literals = literals_before(alloc, setting, cube, step)?;
    if literals.are_contradicted() {
        return Ok(None);
    }
    let around = if are_among(cube, &step.before) {
        Some(cube.copy(alloc)?)
    } else {
        None
    };
    Ok(Some(Way {
        number,
        literals,
        around,
        first,
    }))
}

/// A mode that doesn't lead into a cube, and the lemmas because of which it is so.
#[derive(Drop)]
struct Closing {
    way: Way,
    used: Vec<u32>,
}

impl Closing {
    /// Whether no state is asked for into that cube but those that were asked for here, lemmas apart.
    fn has(&self, way: &Way, cube: &Cube) -> bool {
        if self.way.first && !way.first {
            return false;
        }
        if let Some(held) = &self.way.around
            && !cube.covers(held)
        {
            return false;
        }
        self.way.literals.follow_from(&way.literals)
    }
}

/// The last ones of each mode.
#[derive(Drop)]
pub(crate) struct Closed {
    of_modes: Vec<VecDeque<Closing>>,
}

impl Closed {
    /// None of so many modes.
    pub(crate) fn new(alloc: Global, modes: usize) -> Result<Closed, Memory> {
        let mut of_modes = Vec::with_capacity(alloc, modes)?;
        for _ in 0..modes {
            of_modes.push(VecDeque::new(alloc))?;
        }
        Ok(Closed { of_modes })
    }

    /// The lemmas because of which a mode doesn't lead into a cube, where that follows from what is kept.
    pub(crate) fn used_for(
        &self,
        way: &Way,
        cube: &Cube,
        lemmas: &[Lemma],
        allowed: Allowed<'_>,
    ) -> Option<&[u32]> {
        let closings = self.of_modes.get(way.number)?;
        for closing in closings.iter().rev() {
            if closing.has(way, cube) && are_allowed(lemmas, allowed, &closing.used) {
                return Some(closing.used.as_slice());
            }
        }
        None
    }

    /// Keeps a mode that doesn't lead into a cube.
    pub(crate) fn keep(&mut self, way: Way, used: Vec<u32>) -> Result<(), Memory> {
        if let Some(closings) = self.of_modes.get_mut(way.number) {
            if closings.len() >= MOST {
                let _ = closings.pop_front();
            }
            closings.push_back(Closing { way, used })?;
        }
        Ok(())
    }
}

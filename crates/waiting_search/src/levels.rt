//! Formulas for the levels of a waiting-for, and the conditions that its rule has of them (Manna and Pnueli, Temporal Verification of
//! Reactive Systems: Safety, 1995, section 3.3): where the claim begins one of them holds, and each step leads from a level above 0 to it
//! or to a lower one. That each implies the formula of the claim needs no question, since that is a part of it.

use crate::claim::WaitingFor;
use control_cubes::{Cube, CubeFault, negation};
use invariant_search::{Allowed, Answer, Search};
use st_form::{Form, SharedForm};
use st_memory::Memory;
use std::alloc::Global;

/// A level: the formula of the claim, and cubes outside which it is.
#[derive(Drop)]
pub struct Level {
    pub cubes: Vec<Cube>,
    form: SharedForm,
    /// That it isn't so, here and behind each mode.
    denied: SharedForm,
    denied_behind: Vec<SharedForm>,
}

/// The levels from the highest down to level 0, and where the claim begins.
#[derive(Drop)]
pub struct Levels {
    pub(crate) start: SharedForm,
    pub levels: Vec<Level>,
}

/// A formula denied.
fn denial(alloc: Global, form: Form) -> Result<SharedForm, Memory> {
    SharedForm::new(alloc, negation(alloc, form)?, 0)
}

/// The formula of the claim, and that cubes are left.
fn level_form(
    alloc: Global,
    search: &Search<'_>,
    form: &Form,
    cubes: &[Cube],
) -> Result<Form, Memory> {
    let mut parts = Vec::new(alloc);
    parts.push(form.copy(alloc)?)?;
    for cube in cubes {
        parts.push(cube.clause(alloc, search.components(), search.layout())?)?;
    }
    Ok(Form::And(parts))
}

impl Level {
    /// The level with the formula of the claim, outside cubes.
    pub(crate) fn new(
        alloc: Global,
        search: &Search<'_>,
        form: &Form,
        cubes: Vec<Cube>,
    ) -> Result<Level, CubeFault> {
        let said = level_form(alloc, search, form, &cubes)?;
        let mut denied_behind = Vec::with_capacity(alloc, search.steps().len())?;
        for step in search.steps() {
            denied_behind.push(denial(alloc, said.replace(alloc, step.change)?)?)?;
        }
        Ok(Level {
            cubes,
            denied: denial(alloc, said.copy(alloc)?)?,
            form: SharedForm::new(alloc, said, 0)?,
            denied_behind,
        })
    }
}

impl Levels {
    /// The levels of a claim outside cubes, which are those of level 1 and up.
    pub fn new(
        alloc: Global,
        search: &Search<'_>,
        claim: WaitingFor<'_>,
        cubes: Vec<Vec<Cube>>,
    ) -> Result<Levels, CubeFault> {
        let mut levels = Vec::with_capacity(alloc, claim.forms.len())?;
        let mut left = cubes;
        for form in claim.forms {
            let cubes = left.pop().unwrap_or(Vec::new(alloc));
            levels.push(Level::new(alloc, search, form, cubes)?)?;
        }
        Ok(Levels {
            start: SharedForm::new(alloc, claim.start.copy(alloc)?, 0)?,
            levels,
        })
    }

    /// That the claim begins at no level.
    fn gap(&self, alloc: Global) -> Result<Vec<SharedForm>, Memory> {
        let mut forms = Vec::new(alloc);
        forms.push(self.start.share()?)?;
        for level in &self.levels {
            forms.push(level.denied.share()?)?;
        }
        Ok(forms)
    }

    /// That the mode with a number leads from the level at a place to none that is as low.
    fn escape(
        &self,
        alloc: Global,
        search: &Search<'_>,
        place: usize,
        number: usize,
    ) -> Result<Vec<SharedForm>, Memory> {
        let mut forms = Vec::new(alloc);
        if let Some(step) = search.steps().get(number) {
            forms.push(step.enabled.share()?)?;
        }
        for (other, level) in self.levels.iter().enumerate() {
            if other == place {
                forms.push(level.form.share()?)?;
            }
            if other >= place
                && let Some(denied) = level.denied_behind.get(number)
            {
                forms.push(denied.share()?)?;
            }
        }
        Ok(forms)
    }

    /// Whether each step from the level at a place leads to it or to a lower one. The lemmas because of which it is so are appended to those
    /// used.
    pub(crate) fn is_kept(
        &self,
        alloc: Global,
        search: &mut Search<'_>,
        place: usize,
        allowed: Allowed<'_>,
        used: &mut Vec<u32>,
    ) -> Result<bool, CubeFault> {
        for number in 0..search.steps().len() {
            let forms = self.escape(alloc, search, place, number)?;
            if !is_never(alloc, search, forms, allowed, used)? {
                return Ok(false);
            }
        }
        Ok(true)
    }

    /// The lemmas because of which the rule's conditions hold; `None` where that isn't known with those that are allowed.
    pub fn kept_by(
        &self,
        alloc: Global,
        search: &mut Search<'_>,
        allowed: Allowed<'_>,
    ) -> Result<Option<Vec<u32>>, CubeFault> {
        let mut used = Vec::new(alloc);
        let gap = self.gap(alloc)?;
        if !is_never(alloc, search, gap, allowed, &mut used)? {
            return Ok(None);
        }
        for place in 0..self.levels.len().saturating_sub(1) {
            if !self.is_kept(alloc, search, place, allowed, &mut used)? {
                return Ok(None);
            }
        }
        used.sort_unstable();
        used.dedup();
        Ok(Some(used))
    }
}

/// Whether formulas are never true together, by the lemmas that are allowed. Those because of which it is so are appended to those used.
fn is_never(
    alloc: Global,
    search: &mut Search<'_>,
    forms: Vec<SharedForm>,
    allowed: Allowed<'_>,
    used: &mut Vec<u32>,
) -> Result<bool, CubeFault> {
    match search.solve(alloc, forms, allowed)? {
        Answer::Never(lemmas) => {
            used.extend_from_slice(&lemmas)?;
            Ok(true)
        }
        Answer::State(_) | Answer::Unknown(_) => Ok(false),
    }
}

//! Steps that ask for a rule of their own: a response for its chain, a waiting-for for its levels.

use crate::answers::{Failing, Found, Unfound};
use crate::insertions::between;
use crate::level_rules::plain_rule;
use crate::progress::{Progress, unfound};
use crate::proving::Task;
use crate::responding::{Responded, respond};
use crate::schedules::schedule_text;
use crate::staying::{Stayed, find_levels};
use control_cubes::CubeFault;
use find_requests::{Extent, Leading, Staying};
use invariant_search::{Observer, Run};
use st_memory::Memory;
use std::alloc::Global;
use step_report::push_text;

impl<'t> Progress<'_, 't> {
    /// Looks for the chain of a response; an answer where none is found. Queries count as for goals.
    pub(crate) fn chain(
        &mut self,
        alloc: Global,
        extent: Extent<'t>,
        leading: &Leading,
    ) -> Result<Option<Found>, Memory> {
        let task = Task {
            subject: self.subject,
            attempt: self.attempt,
            known: &self.known,
            budget: self.left,
        };
        let response = match respond(alloc, task, leading, &mut self.naming) {
            Ok(response) => response,
            Err(CubeFault::TooLarge) => {
                self.left = 0;
                return Ok(Some(self.unknown(alloc, leading.name.as_str(), Unfound::Chain, None)?));
            }
            Err(CubeFault::Memory) => return Err(Memory),
        };
        self.left = self.left.saturating_sub(response.queries);
        match response.responded {
            Responded::Chained(rule, proof) => {
                self.take_rule(alloc, extent, leading.rule, rule, proof)?;
                Ok(None)
            }
            Responded::Unfound(left) => Ok(Some(self.unknown(
                alloc,
                leading.name.as_str(),
                Unfound::Chain,
                left,
            )?)),
        }
    }

    /// The answer that a waiting-for fails at the end of a run.
    fn broken(
        &self,
        alloc: Global,
        extent: Extent<'t>,
        staying: &Staying,
        run: &Run,
    ) -> Result<Found, Memory> {
        let mut proof = Vec::from_slice(alloc, between(self.text, extent.start, staying.end))?;
        push_text(&mut proof, &plain_rule(alloc, &staying.texts)?)?;
        Ok(Found::False(Failing {
            goal: staying.name.clone()?,
            proof,
            schedule: schedule_text(alloc, self.subject, run)?,
        }))
    }

    /// Takes in what came of a waiting-for; an answer where no levels were found.
    fn take_stay(
        &mut self,
        alloc: Global,
        extent: Extent<'t>,
        staying: &Staying,
        stayed: Stayed,
    ) -> Result<Option<Found>, Memory> {
        match stayed {
            Stayed::Levelled(rule, proof) => {
                self.take_rule(alloc, extent, staying.end, rule, proof)?;
                Ok(None)
            }
            Stayed::Refuted(run) => Ok(Some(self.broken(alloc, extent, staying, &run)?)),
            Stayed::Unknown(why, left) => {
                Ok(Some(self.unknown(alloc, staying.name.as_str(), unfound(why), left)?))
            }
        }
    }

    /// Looks for the levels of a waiting-for; an answer where none are found. Queries count as for goals.
    pub(crate) fn levels<O: Observer>(
        &mut self,
        alloc: Global,
        extent: Extent<'t>,
        staying: &Staying,
        observer: &O,
    ) -> Result<Option<Found>, Memory> {
        let task = Task {
            subject: self.subject,
            attempt: self.attempt,
            known: &self.known,
            budget: self.left,
        };
        match find_levels(alloc, task, staying, &mut self.naming, observer) {
            Ok(effort) => {
                self.left = self.left.saturating_sub(effort.queries);
                self.take_stay(alloc, extent, staying, effort.stayed)
            }
            Err(CubeFault::TooLarge) => {
                self.left = 0;
                Ok(Some(self.unknown(alloc, staying.name.as_str(), Unfound::Wide, None)?))
            }
            Err(CubeFault::Memory) => Err(Memory),
        }
    }
}

//! Which invariances that stand proved before a step, and that it doesn't cite, exclude a state: they are false whatever the variables are,
//! and wherever control is, of which the table of the state says `any`.

use crate::mentions::Mentions;
use crate::parts::claimed;
use crate::sources::Sources;
use crate::tables::place_of;
use agreeing_states::{Known, told};
use shown_states::Picture;
use st_memory::Memory;
use std::alloc::Global;
use temporal_goals::Step;

fn is_set(flags: &[bool], number: u32) -> bool {
    flags.get(number as usize).copied().unwrap_or(false)
}

impl Sources<'_> {
    /// Whether it is shown what each component is at; of one that isn't running, whether that is shown of the one around it.
    fn shown_components(
        &self,
        alloc: Global,
        mentions: &Mentions,
        state: &Picture,
    ) -> Result<Vec<bool>, Memory> {
        let components = &self.source.components;
        let mut out = Vec::new(alloc);
        for component in 0..components.count() {
            let shown = match (place_of(state, component), components.around(component)) {
                (Some(place), _) => mentions.component(components, component, place),
                (None, Some((around, _))) => is_set(&out, around),
                (None, None) => false,
            };
            out.push(shown)?;
        }
        Ok(out)
    }

    /// What the table shows of a state.
    fn known(&self, alloc: Global, mentions: &Mentions, state: &Picture) -> Result<Known, Memory> {
        let components = self.shown_components(alloc, mentions, state)?;
        let mut locations = Vec::new(alloc);
        for owner in self.source.components.owners() {
            locations.push(is_set(&components, *owner))?;
        }
        Ok(Known {
            variables: mentions.variables.clone()?,
            locations,
        })
    }

    /// The names of the earlier invariances that aren't cited and are false in each state that agrees with what is shown of this one.
    pub(crate) fn excluding(
        &self,
        alloc: Global,
        number: u32,
        step: &Step,
        mentions: &Mentions,
        state: &Picture,
    ) -> Result<Vec<String>, Memory> {
        let known = self.known(alloc, mentions, state)?;
        let mut out = Vec::new(alloc);
        let earlier = self.posed.script.steps.iter().take(number as usize);
        for (earlier, other) in earlier.enumerate() {
            let earlier = u32::try_from(earlier).unwrap_or(u32::MAX);
            if step.cited.contains(&earlier) {
                continue;
            }
            if let Some(form) = claimed(other) {
                if told(form, &known, &state.store, &state.fronts)? == Some(false) {
                    out.push(other.name.clone()?)?;
                }
            }
        }
        Ok(out)
    }
}

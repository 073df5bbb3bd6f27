//! The states before and behind a step as one table.

use crate::mentions::Mentions;
use crate::sources::Sources;
use control_states::Alternative;
use formula_words::value;
use proof_reports::Row;
use shown_states::Picture;
use st_form::{Change, Form};
use st_memory::Memory;
use st_program::Datum;
use std::alloc::Global;

/// A state, and the one behind it with the change that leads there, if there is a step.
#[derive(Clone, Copy)]
pub(crate) struct Passage<'a> {
    pub before: &'a Picture,
    pub after: Option<(&'a Picture, &'a Change)>,
}

impl<'a> Passage<'a> {
    /// The last of the states.
    pub(crate) fn last(&self) -> &'a Picture {
        match self.after {
            Some((after, _)) => after,
            None => self.before,
        }
    }
}

/// What a component is at in a state, if it runs.
pub(crate) fn place_of(state: &Picture, component: u32) -> Option<Alternative> {
    for (listed, place) in &state.control {
        if *listed == component {
            return Some(*place);
        }
    }
    None
}

fn row(alloc: Global, name: &str, before: String, after: Option<String>) -> Result<Row, Memory> {
    let changed = match &after {
        Some(after) => after.as_str() != before.as_str(),
        None => false,
    };
    Ok(Row {
        name: String::from_str(alloc, name)?,
        before,
        after,
        changed,
    })
}

/// Whether a change leaves one of a component's places or enters one.
fn is_moved(before: Option<Alternative>, after: Option<Alternative>) -> bool {
    before != after
}

impl Sources<'_> {
    /// What a component is at.
    fn standing(&self, alloc: Global, place: Option<Alternative>) -> Result<String, Memory> {
        match place {
            Some(place) => self.words.place(alloc, place),
            None => Ok(String::from_str(alloc, "not running")?),
        }
    }

    /// The row of a component; none where it runs in neither state.
    fn component_row(
        &self,
        alloc: Global,
        passage: Passage<'_>,
        mentions: &Mentions,
        component: u32,
    ) -> Result<Option<Row>, Memory> {
        let before = place_of(passage.before, component);
        let after = passage.after.map(|(state, _)| place_of(state, component));
        let Some(place) = before else {
            return self.entering_row(alloc, component, after.flatten());
        };
        let asked = mentions.component(&self.source.components, component, place)
            || after.map(|after| is_moved(before, after)) == Some(true);
        let name = self.words.component(component);
        if !asked {
            let any = String::from_str(alloc, "any")?;
            let later = if after.is_some() {
                Some(String::from_str(alloc, "any")?)
            } else {
                None
            };
            return Ok(Some(row(alloc, name, any, later)?));
        }
        let first = self.standing(alloc, before)?;
        let later = match after {
            Some(after) => Some(self.standing(alloc, after)?),
            None => None,
        };
        Ok(Some(row(alloc, name, first, later)?))
    }

    /// The row of a component that begins to run.
    fn entering_row(
        &self,
        alloc: Global,
        component: u32,
        after: Option<Alternative>,
    ) -> Result<Option<Row>, Memory> {
        if after.is_none() {
            return Ok(None);
        }
        let first = self.standing(alloc, None)?;
        let later = self.standing(alloc, after)?;
        Ok(Some(row(alloc, self.words.component(component), first, Some(later))?))
    }

    /// What a variable is behind a change: `any` where what it is made from is.
    fn datum_behind(
        &self,
        alloc: Global,
        state: &Picture,
        change: &Change,
        mentions: &Mentions,
        variable: u32,
    ) -> Result<String, Memory> {
        if !self.is_known_behind(alloc, change, mentions, variable)? {
            return Ok(String::from_str(alloc, "any")?);
        }
        match state.store.get(variable as usize) {
            Some(datum) => value(alloc, *datum),
            None => Ok(String::new(alloc)),
        }
    }

    /// Whether what a change makes of a variable rests on what is spoken of alone.
    fn is_known_behind(
        &self,
        alloc: Global,
        change: &Change,
        mentions: &Mentions,
        variable: u32,
    ) -> Result<bool, Memory> {
        for (changed, sum) in &change.numbers {
            if *changed == variable {
                return Ok(mentions.has_all(sum));
            }
        }
        for (changed, form) in &change.truths {
            if *changed == variable {
                return self.has_all_of(alloc, mentions, form);
            }
        }
        Ok(mentions.variable(variable))
    }

    fn has_all_of(&self, alloc: Global, mentions: &Mentions, form: &Form) -> Result<bool, Memory> {
        let count = mentions.variables.len();
        let own = Mentions::of_form(alloc, count, 0, form)?;
        for (asked, known) in own.variables.iter().zip(mentions.variables.iter()) {
            if *asked && !*known {
                return Ok(false);
            }
        }
        Ok(true)
    }

    fn variable_row(
        &self,
        alloc: Global,
        passage: Passage<'_>,
        mentions: &Mentions,
        variable: u32,
        datum: Datum,
    ) -> Result<Row, Memory> {
        let before = if mentions.variable(variable) {
            value(alloc, datum)?
        } else {
            String::from_str(alloc, "any")?
        };
        let after = match passage.after {
            Some((state, change)) => {
                Some(self.datum_behind(alloc, state, change, mentions, variable)?)
            }
            None => None,
        };
        row(alloc, self.words.variable(variable), before, after)
    }

    /// The table of a state, or of the states before and behind a step: components first, then variables.
    pub(crate) fn table(
        &self,
        alloc: Global,
        passage: Passage<'_>,
        mentions: &Mentions,
    ) -> Result<Vec<Row>, Memory> {
        let mut rows = Vec::new(alloc);
        for component in 0..self.source.components.count() {
            if let Some(row) = self.component_row(alloc, passage, mentions, component)? {
                rows.push(row)?;
            }
        }
        for (variable, datum) in passage.before.store.iter().enumerate() {
            let variable = u32::try_from(variable).unwrap_or(u32::MAX);
            rows.push(self.variable_row(alloc, passage, mentions, variable, *datum)?)?;
        }
        Ok(rows)
    }
}

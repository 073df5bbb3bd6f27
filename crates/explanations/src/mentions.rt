//! What a condition speaks of. A variable that it doesn't speak of has any value in a state that refutes it, and so has control of
//! a component at none of whose locations it looks.

use control_states::{Alternative, Components};
use st_form::{Condition, Consequent, Form, Lin, SharedForm};
use st_memory::Memory;
use std::alloc::Global;

/// A flag for each variable and for each location.
#[derive(Drop)]
pub(crate) struct Mentions {
    pub variables: Vec<bool>,
    pub locations: Vec<bool>,
}

fn set(flags: &mut [bool], number: u32) {
    if let Some(flag) = flags.get_mut(number as usize) {
        *flag = true;
    }
}

fn is_set(flags: &[bool], number: u32) -> bool {
    match flags.get(number as usize) {
        Some(flag) => *flag,
        None => false,
    }
}

fn add_sum(mentions: &mut Mentions, sum: &Lin) {
    for entry in sum.entries() {
        set(&mut mentions.variables, entry.0);
    }
}

#[cycle(mention)]
fn add_form(form: &Form, mentions: &mut Mentions) {
    match form {
        Form::True => {}
        Form::False => {}
        Form::Row(sum) => add_sum(mentions, sum),
        Form::Equal(sum) => add_sum(mentions, sum),
        Form::BoolVar(variable) => set(&mut mentions.variables, *variable),
        Form::At(location) => set(&mut mentions.locations, *location),
        Form::Not(inner) => add_form(inner, mentions),
        Form::And(parts) => add_forms(parts, mentions),
        Form::Or(parts) => add_forms(parts, mentions),
    }
}

#[cycle(mention)]
fn add_forms(forms: &[Form], mentions: &mut Mentions) {
    for form in forms {
        add_form(form, mentions);
    }
}

fn add_shared(mentions: &mut Mentions, forms: &[SharedForm]) {
    for form in forms {
        add_form(form.get(), mentions);
    }
}

fn add_consequent(mentions: &mut Mentions, shown: &Consequent) {
    match shown {
        Consequent::One(form) => add_form(form.get(), mentions),
        Consequent::Any(cases) => {
            for case in cases {
                add_shared(mentions, case);
            }
        }
    }
}

impl Mentions {
    /// What a formula speaks of, of so many variables and locations.
    pub(crate) fn of_form(
        alloc: Global,
        variables: usize,
        locations: usize,
        form: &Form,
    ) -> Result<Mentions, Memory> {
        let mut mentions = Mentions::none(alloc, variables, locations)?;
        add_form(form, &mut mentions);
        Ok(mentions)
    }

    fn none(alloc: Global, variables: usize, locations: usize) -> Result<Mentions, Memory> {
        let mut mentions = Mentions {
            variables: Vec::new(alloc),
            locations: Vec::new(alloc),
        };
        mentions.variables.resize(variables, false)?;
        mentions.locations.resize(locations, false)?;
        Ok(mentions)
    }

    /// What a condition speaks of, of so many variables and locations.
    pub(crate) fn of_condition(
        alloc: Global,
        variables: usize,
        locations: usize,
        condition: &Condition,
    ) -> Result<Mentions, Memory> {
        let mut mentions = Mentions::none(alloc, variables, locations)?;
        add_shared(&mut mentions, &condition.given);
        add_consequent(&mut mentions, &condition.shown);
        Ok(mentions)
    }

    pub(crate) fn variable(&self, variable: u32) -> bool {
        is_set(&self.variables, variable)
    }

    /// Whether a sum speaks of variables that are spoken of, and of no other.
    pub(crate) fn has_all(&self, sum: &Lin) -> bool {
        for entry in sum.entries() {
            if !self.variable(entry.0) {
                return false;
            }
        }
        true
    }

    /// Whether control of a component is spoken of: it is inside a cooperation, or one of its locations is looked at.
    pub(crate) fn component(
        &self,
        components: &Components,
        component: u32,
        place: Alternative,
    ) -> bool {
        if matches!(place, Alternative::Inside(_)) {
            return true;
        }
        for alternative in components.alternatives(component) {
            match alternative {
                Alternative::Location(location) => {
                    if is_set(&self.locations, *location) {
                        return true;
                    }
                }
                Alternative::Inside(_) => {}
            }
        }
        false
    }
}

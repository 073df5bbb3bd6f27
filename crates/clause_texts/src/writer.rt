//! What clauses are written with.

ghost use Rattle.std.specs.Prelude.{◌≡◌, length};

use crate::fault::ClauseFault;
use crate::labels::{LabelTable, label_table};
use crate::literals::{Literal, literals, truth_text};
use crate::phrases::{Phrase, atom, conjunction, push_conjunct};
use crate::rows::{Comparison, row_text};
use crate::whereabouts::{Whereabouts, said_places};
use control_cubes::{Cube, Layout, PlaceSet};
use control_states::Components;
use st_linear::Lin;
use st_memory::Memory;
use st_program::NameTable;
use std::alloc::Global;

/// What the parts of a clause cost beside their bytes: a component, a literal of a variable, a set that is said by its complement, and
/// that control never comes to a place, which mostly follows from the rest.
const COMPONENT: usize = 40;

const LITERAL: usize = 30;

const COMPLEMENT: usize = 8;

const DEAD: usize = 200;

/// The names of a program, its places, and how each place is said.
#[derive(Drop)]
pub struct ClauseWriter<'p> {
    pub(crate) names: &'p NameTable,
    /// The number of variables.
    pub(crate) variables: u32,
    /// Of each component all its places.
    full: Vec<PlaceSet>,
    /// Of each component the places to which control never comes.
    dead: Vec<PlaceSet>,
    labels: LabelTable,
    ghost counted: { variables ≡ length names.now.variables },
}

impl<'p> ClauseWriter<'p> {
    /// A writer for a program with so many variables, of whose components `dead` are the places to which control never comes.
    pub fn new(
        alloc: Global,
        names: &'p NameTable,
        variables: u32,
        components: &Components,
        layout: &Layout,
        dead: &[PlaceSet],
    ) -> Result<ClauseWriter<'p>, Memory>
        requires { variables ≡ length names.now.variables }
    {
        let labels = label_table(alloc, names, components)?;
        Ok(ClauseWriter {
            names,
            variables,
            full: Vec::from_slice(alloc, layout.full())?,
            dead: Vec::from_slice(alloc, dead)?,
            labels,
        })
    }

    /// All places of a component.
    fn full_of(&self, component: usize) -> PlaceSet {
        self.full.get(component).copied().unwrap_or(PlaceSet::EMPTY)
    }

    /// The places of a component to which control never comes.
    fn dead_of(&self, component: usize) -> PlaceSet {
        self.dead.get(component).copied().unwrap_or(PlaceSet::EMPTY)
    }

    /// Whether a cube says of a component that it is at places to which control never comes.
    fn is_dead(&self, cube: &Cube, component: usize) -> bool {
        match cube.places.get(component) {
            Some(set) => set.is_within(self.dead_of(component)),
            None => false,
        }
    }

    /// Whether a cube says where a component is.
    pub fn is_said(&self, cube: &Cube, component: usize) -> bool {
        match cube.places.get(component) {
            Some(set) => !self.full_of(component).is_within(*set),
            None => false,
        }
    }

    /// How a set of places of a component is said.
    pub fn whereabouts(
        &self,
        alloc: Global,
        component: usize,
        set: PlaceSet,
    ) -> Result<Whereabouts, ClauseFault> {
        let full = self.full_of(component);
        let dead = self.dead_of(component);
        match self.labels.get(component) {
            Some(labels) => said_places(alloc, labels, full, dead, set),
            None => Err(ClauseFault::Unsaid),
        }
    }

    /// How a cube says where control is, of each component that it speaks of.
    pub fn all_whereabouts(
        &self,
        alloc: Global,
        cube: &Cube,
    ) -> Result<Vec<Whereabouts>, ClauseFault> {
        let mut out = Vec::new(alloc);
        for (component, set) in cube.places.iter().enumerate() {
            if self.is_said(cube, component) {
                out.push(self.whereabouts(alloc, component, *set)?)?;
            }
        }
        Ok(out)
    }

    /// That a component is at one of the places of a set, as an atom; `Unsaid` where the places have no labels.
    pub fn place(
        &self,
        alloc: Global,
        component: usize,
        set: PlaceSet,
    ) -> Result<Vec<u8>, ClauseFault> {
        let whereabouts = self.whereabouts(alloc, component, set)?;
        if !whereabouts.within {
            return Err(ClauseFault::Unsaid);
        }
        let phrase = whereabouts.phrase(alloc, self.names, true)?;
        let mut text = Vec::new(alloc);
        push_conjunct(&mut text, &phrase)?;
        Ok(text)
    }

    /// A row that is compared with 0.
    pub fn row(
        &self,
        alloc: Global,
        row: &Lin,
        comparison: Comparison,
    ) -> Result<Vec<u8>, ClauseFault> {
        row_text(alloc, self.names, self.variables, row, comparison)
    }

    /// That a boolean variable has this value.
    pub fn truth(&self, alloc: Global, variable: u32, value: bool) -> Result<Vec<u8>, Memory> {
        truth_text(alloc, self.names, self.variables, variable, value)
    }

    /// How many bytes, and the like, a clause costs its reader: its text is one of so many bytes.
    pub fn cost(&self, alloc: Global, cube: &Cube, bytes: usize) -> Result<usize, ClauseFault> {
        let places = self.all_whereabouts(alloc, cube)?;
        let complements = places.iter().filter(|place| !place.within).count();
        let literals = self.literals(alloc, cube)?.len();
        let dead = (0..cube.places.len()).any(|component| self.is_dead(cube, component));
        Ok(
            bytes
                .saturating_add(places.len().saturating_mul(COMPONENT))
                .saturating_add(literals.saturating_mul(LITERAL))
                .saturating_add(complements.saturating_mul(COMPLEMENT))
                .saturating_add(if dead { DEAD } else { 0 }),
        )
    }

    /// What a cube says, as one phrase.
    pub fn said(&self, alloc: Global, cube: &Cube) -> Result<Phrase, ClauseFault> {
        let mut parts = Vec::new(alloc);
        for place in self.all_whereabouts(alloc, cube)? {
            parts.push(place.phrase(alloc, self.names, true)?)?;
        }
        for literal in self.literals(alloc, cube)? {
            parts.push(atom(alloc, &literal.said)?)?;
        }
        Ok(conjunction(alloc, parts)?)
    }

    /// What a cube says of variables.
    pub fn literals(&self, alloc: Global, cube: &Cube) -> Result<Vec<Literal>, ClauseFault> {
        literals(alloc, self.names, self.variables, cube)
    }
}

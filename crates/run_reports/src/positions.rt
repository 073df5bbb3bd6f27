//! The positions of a run, each with what the move before it changed.

ghost use Rattle.std.specs.Prelude.{◌≡◌, length, IfOk};

use crate::standing::standing;
use control_states::Alternative;
use formula_words::{Vocabulary, value};
use posed_conditions::TranslatedProgram;
use program_words::spot;
use proof_reports::{Cell, Position, Spot};
use source_lines::Lines;
use source_places::StatementPlace;
use st_form::TransName;
use st_memory::Memory;
use st_program::State;
use std::alloc::Global;
use trace_player::{Played, control};

/// A program's text with what is known of it: how its states are told, and where its statements stand.
#[derive(Clone, Copy)]
pub struct Ground<'a> {
    pub name: &'a str,
    pub text: &'a [u8],
    pub lines: &'a Lines<'a>,
    pub places: &'a [StatementPlace],
    pub words: &'a Vocabulary,
    pub source: &'a TranslatedProgram,
}

/// A cell, changed where the one before it at the same place has another value.
fn cell(alloc: Global, name: &str, value: String, before: Option<&Cell>) -> Result<Cell, Memory> {
    let changed = match before {
        Some(before) => before.value.as_str() != value.as_str(),
        None => false,
    };
    Ok(Cell {
        name: String::from_str(alloc, name)?,
        value,
        changed,
    })
}

impl Ground<'_> {
    fn place(&self, alloc: Global, place: Option<Alternative>) -> Result<String, Memory> {
        match place {
            Some(place) => self.words.place(alloc, place),
            None => Ok(String::from_str(alloc, "-")?),
        }
    }

    /// The cells of a state: components first, then variables. A cell is marked as changed where it differs from the one before.
    pub fn cells(
        &self,
        alloc: Global,
        state: &State,
        before: &[Cell],
    ) -> Result<Vec<Cell>, Memory> {
        let fronts = control(alloc, &self.source.program, state)?;
        let standing = standing(alloc, &self.source.components, &fronts)?;
        let mut out = Vec::new(alloc);
        for (component, place) in standing.iter().enumerate() {
            let text = self.place(alloc, *place)?;
            let component = u32::try_from(component).unwrap_or(u32::MAX);
            let name = self.words.component(component);
            out.push(cell(alloc, name, text, before.get(out.len()))?)?;
        }
        for (variable, datum) in state.store.iter().enumerate() {
            let text = value(alloc, *datum)?;
            let variable = u32::try_from(variable).unwrap_or(u32::MAX);
            let name = self.words.variable(variable);
            out.push(cell(alloc, name, text, before.get(out.len()))?)?;
        }
        Ok(out)
    }

    /// The statement that a move is of.
    pub fn statement(&self, alloc: Global, name: TransName) -> Result<Option<Spot>, Memory> {
        let TransName::Step { occ, part: _ } = name else {
            return Ok(None);
        };
        match self.places.get(occ as usize) {
            Some(place) => {
                Ok(Some(spot(
                    alloc,
                    self.name,
                    self.text,
                    self.lines,
                    place.head,
                    "taken here",
                )?))
            }
            None => Ok(None),
        }
    }

    fn names(&self, alloc: Global, names: &[TransName]) -> Result<Vec<String>, Memory> {
        let mut out = Vec::new(alloc);
        for name in names {
            if *name != TransName::Idle {
                out.push(self.words.transition(alloc, *name)?)?;
            }
        }
        Ok(out)
    }

    fn taken(&self, alloc: Global, name: Option<TransName>) -> Result<Option<String>, Memory> {
        match name {
            Some(name) => Ok(Some(self.words.transition(alloc, name)?)),
            None => Ok(None),
        }
    }

    /// A position of a run.
    fn position(
        &self,
        alloc: Global,
        played: &Played,
        number: usize,
        state: &State,
        rounds: u32,
        before: &[Cell],
    ) -> Result<Position, Memory>
        ensures number { IfOk result (λ p. p.position ≡ number) }
        ensures rounds { IfOk result (λ p. p.rounds ≡ rounds) }
    {
        let name = played.names.get(number).copied();
        let enabled: &[TransName] = match played.enabled.get(number) {
            Some(enabled) => enabled.as_slice(),
            None => &[],
        };
        Ok(Position {
            position: number as u64,
            state: self.cells(alloc, state, before)?,
            enabled: self.names(alloc, enabled)?,
            taken: self.taken(alloc, name)?,
            spot: match name {
                Some(name) => self.statement(alloc, name)?,
                None => None,
            },
            rounds: u64::from(rounds),
        })
    }

    /// All positions of a run.
    pub(crate) fn positions(
        &self,
        alloc: Global,
        played: &Played,
        rounds: &[u32],
    ) -> Result<Vec<Position>, Memory>
        ensures { IfOk result (λ v. length v.items ≡ length played.now.states.items) }
    {
        let mut out: Vec<Position> = Vec::new(alloc);
        for (number, state) in played.states.iter().enumerate() {
            let before: &[Cell] = match out.last() {
                Some(position) => position.state.as_slice(),
                None => &[],
            };
            let count = rounds.get(number).copied().unwrap_or(0);
            let position = self.position(alloc, played, number, state, count, before)?;
            out.push(position)?;
        }
        Ok(out)
    }
}

//! Clauses as implications.
//!
//! The complement of a cube is that not all its literals hold. It is written as a person would: what the cube says of places and
//! variables on the left, and one literal denied on the right. Places that are said by others stand best on the right, `y1 -> at l3 \/
//! at l4`; else the last literal of a variable does, `at l3 -> y1 >= 1`. Where a cube speaks of places alone, said by themselves, they
//! exclude each other: `~(at l4 /\ at m4)`.

use crate::fault::ClauseFault;
use crate::literals::{Literal, are_opposed, leads_positive};
use crate::phrases::{Phrase, atom, conjunction, implication, negation};
use crate::rows::{Comparison, row_text};
use crate::whereabouts::Whereabouts;
use crate::writer::ClauseWriter;
use control_cubes::{Cube, opposite};
use st_linear::Lin;
use st_memory::Memory;
use std::alloc::Global;

/// What stands on the right.
#[derive(Clone, Copy, PartialEq, Eq)]
enum Conclusion {
    Places(usize),
    Variable(usize),
}

/// What of a cube is denied on the right, if anything is.
fn right_side(places: &[Whereabouts], literals: &[Literal]) -> Option<Conclusion> {
    if let Some(number) = places.iter().position(|place| !place.within) {
        return Some(Conclusion::Places(number));
    }
    if let Some(last) = literals.len().checked_sub(1) {
        return Some(Conclusion::Variable(last));
    }
    if places.len() == 1 {
        Some(Conclusion::Places(0))
    } else {
        None
    }
}

/// The only row of a cube, as it is denied.
fn denied_row(alloc: Global, cube: &Cube) -> Result<Option<Lin>, ClauseFault> {
    match cube.rows.as_slice() {
        [row] => Ok(Some(opposite(alloc, row)?)),
        _ => Ok(None),
    }
}

/// The form that is 0 where neither cube holds, if they differ in nothing but one row each, which are the two halves of an equation.
fn shared_equation(alloc: Global, one: &Cube, other: &Cube) -> Result<Option<Lin>, ClauseFault> {
    if one.places != other.places || one.truths != other.truths {
        return Ok(None);
    }
    let Some(left) = denied_row(alloc, one)? else {
        return Ok(None);
    };
    let Some(right) = denied_row(alloc, other)? else {
        return Ok(None);
    };
    if !are_opposed(&left, &right) {
        return Ok(None);
    }
    if leads_positive(&left) {
        Ok(Some(left))
    } else {
        Ok(Some(right))
    }
}

impl ClauseWriter<'_> {
    /// What a cube says, but what stands on the right.
    fn premises(
        &self,
        alloc: Global,
        places: &[Whereabouts],
        literals: &[Literal],
        conclusion: Option<Conclusion>,
    ) -> Result<Vec<Phrase>, Memory> {
        let mut out = Vec::new(alloc);
        for (number, place) in places.iter().enumerate() {
            if conclusion != Some(Conclusion::Places(number)) {
                out.push(place.phrase(alloc, self.names, true)?)?;
            }
        }
        for (number, literal) in literals.iter().enumerate() {
            if conclusion != Some(Conclusion::Variable(number)) {
                out.push(atom(alloc, &literal.said)?)?;
            }
        }
        Ok(out)
    }

    /// What stands on the right, denied.
    fn denied(
        &self,
        alloc: Global,
        places: &[Whereabouts],
        literals: &[Literal],
        conclusion: Option<Conclusion>,
    ) -> Result<Option<Phrase>, Memory> {
        match conclusion {
            Some(Conclusion::Places(number)) => match places.get(number) {
                Some(place) => Ok(Some(place.phrase(alloc, self.names, false)?)),
                None => Ok(None),
            },
            Some(Conclusion::Variable(number)) => match literals.get(number) {
                Some(literal) => Ok(Some(atom(alloc, &literal.denied)?)),
                None => Ok(None),
            },
            None => Ok(None),
        }
    }

    /// The clause of a cube: that not all its literals hold. What is printed is exactly that. `Unsaid` where a place has no label.
    pub fn clause(&self, alloc: Global, cube: &Cube) -> Result<Phrase, ClauseFault> {
        let places = self.all_whereabouts(alloc, cube)?;
        let literals = self.literals(alloc, cube)?;
        let conclusion = right_side(&places, &literals);
        let premises = self.premises(alloc, &places, &literals, conclusion)?;
        let denied = self.denied(alloc, &places, &literals, conclusion)?;
        if premises.is_empty() {
            return match denied {
                Some(denied) => Ok(denied),
                None => Ok(atom(alloc, b"false")?),
            };
        }
        let left = conjunction(alloc, premises)?;
        match denied {
            Some(right) => Ok(implication(alloc, &left, &right)?),
            None => Ok(negation(alloc, &left)?),
        }
    }

    /// The two clauses as one with an equation on the right, where they are its halves and differ in nothing else.
    pub fn joined(
        &self,
        alloc: Global,
        one: &Cube,
        other: &Cube,
    ) -> Result<Option<Phrase>, ClauseFault> {
        let Some(equation) = shared_equation(alloc, one, other)? else {
            return Ok(None);
        };
        let text = row_text(
            alloc,
            self.names,
            self.variables,
            &equation,
            Comparison::Equal,
        )?;
        let right = atom(alloc, &text)?;
        let places = self.all_whereabouts(alloc, one)?;
        let literals = self.literals(alloc, one)?;
        let row = literals.len().checked_sub(1).map(Conclusion::Variable);
        let premises = self.premises(alloc, &places, &literals, row)?;
        if premises.is_empty() {
            return Ok(Some(right));
        }
        let left = conjunction(alloc, premises)?;
        Ok(Some(implication(alloc, &left, &right)?))
    }
}

//! Steps of more than one layer.
//!
//! Each layer of lemmas could be a step of its own, which cites those in front of it. Layers that follow each other may be one step all
//! the same, since what is kept with the help of lemmas is kept together with them; that saves names and citations, and a person writes it
//! so. But the conditions of a step are joint, and conjuncts of several cases each may make them too wide, so it is asked first whether
//! they are decided.

use crate::ground::{Ground, Needs};
use crate::steps::uses_of_layer;
use control_cubes::CubeFault;
use std::alloc::Global;

/// A step of more than one layer has at most so many clauses.
const MOST_CLAUSES: usize = 4;

/// Two layers as one, in the order of the candidates.
fn together(alloc: Global, one: &[usize], other: &[usize]) -> Result<Vec<usize>, CubeFault> {
    let mut out = Vec::with_capacity(alloc, one.len().saturating_add(other.len()))?;
    out.extend_from_slice(one)?;
    out.extend_from_slice(other)?;
    out.sort()?;
    Ok(out)
}

/// The group that a layer makes with the one in front of it, if their conditions are decided together.
fn widened(
    alloc: Global,
    ground: &mut Ground<'_>,
    needs: &Needs,
    group: &[usize],
    layer: &[usize],
) -> Result<Option<Vec<usize>>, CubeFault> {
    if group.len().saturating_add(layer.len()) > MOST_CLAUSES {
        return Ok(None);
    }
    let places = together(alloc, group, layer)?;
    let uses = uses_of_layer(alloc, needs, &places)?;
    if ground.keeps_together(alloc, &places, &uses)? {
        Ok(Some(places))
    } else {
        Ok(None)
    }
}

/// Takes a layer into the last group, or for a group of its own.
fn push_layer(
    alloc: Global,
    ground: &mut Ground<'_>,
    needs: &Needs,
    groups: &mut Vec<Vec<usize>>,
    layer: Vec<usize>,
) -> Result<(), CubeFault> {
    let wider = match groups.last() {
        Some(last) => widened(alloc, ground, needs, last, &layer)?,
        None => None,
    };
    let group = match wider {
        Some(wider) => {
            let _ = groups.pop();
            wider
        }
        None => layer,
    };
    groups.push(group)?;
    Ok(())
}

/// The layers of a proof, joined where they follow each other and their conditions are decided together.
pub(crate) fn joined(
    alloc: Global,
    ground: &mut Ground<'_>,
    needs: &Needs,
    layers: Vec<Vec<usize>>,
) -> Result<Vec<Vec<usize>>, CubeFault> {
    let mut groups = Vec::with_capacity(alloc, layers.len())?;
    for layer in layers {
        push_layer(alloc, ground, needs, &mut groups, layer)?;
    }
    Ok(groups)
}

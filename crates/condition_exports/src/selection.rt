//! Which conditions are meant.

use crate::naming::condition_name;
use posed_conditions::PosedProof;
use st_memory::Memory;
use std::alloc::{AllocError, AllocFailed, Global};
use thiserror::Error;

/// Why nothing is exported.
#[derive(Clone, Copy, Debug, PartialEq, Eq, Error)]
pub enum ExportFault {
    /// No condition has the name or the number.
    #[error("no condition is called so")]
    NoSuchCondition,
    #[error("out of memory")]
    Memory,
}

impl From<AllocError> for ExportFault {
    fn from(_: AllocError) -> ExportFault {
        ExportFault::Memory
    }
}

impl<T: Drop> From<AllocFailed<T>> for ExportFault {
    fn from(_: AllocFailed<T>) -> ExportFault {
        ExportFault::Memory
    }
}

impl From<Memory> for ExportFault {
    fn from(_: Memory) -> ExportFault {
        ExportFault::Memory
    }
}

/// Whether a condition is meant by words: they are its number, or its name or the first words of it.
fn is_meant(name: &str, number: &str, wanted: &str) -> bool {
    if wanted == number {
        return true;
    }
    match name.strip_prefix(wanted) {
        Some(rest) => rest.is_empty() || rest.starts_with(' '),
        None => false,
    }
}

/// The places of the conditions that are meant, in their order: all, or those whose number or name is wanted. A name may break
/// off behind any of its words, so that a step's name means all conditions of the step.
///
/// # Errors
///
/// `NoSuchCondition` where none is meant, or want of memory.
pub fn selected(
    alloc: Global,
    posed: &PosedProof,
    wanted: Option<&str>,
) -> Result<Vec<usize>, ExportFault> {
    let mut places = Vec::new(alloc);
    for (place, condition) in posed.proof.conditions.iter().enumerate() {
        let meant = match wanted {
            None => true,
            Some(wanted) => {
                let steps = posed.proof.script.steps.as_slice();
                let name = condition_name(alloc, &posed.source.names, steps, &condition.name)?;
                let number = format!(in alloc; "{}", place.saturating_add(1))?;
                is_meant(&name, &number, wanted)
            }
        };
        if meant {
            places.push(place)?;
        }
    }
    if places.is_empty() && wanted.is_some() {
        return Err(ExportFault::NoSuchCondition);
    }
    Ok(places)
}

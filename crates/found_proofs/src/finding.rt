//! The call that `find` makes, once for each attempt.

ghost use Rattle.std.specs.Prelude.{◌≤◌, IfOk};

use crate::answers::{FindFault, Found};
use crate::attempts::Attempt;
use crate::equations::has_equations;
use crate::progress::{progressed, unmade};
use crate::subject::{Subject, read_subject};
use find_requests::read_request;
use invariant_search::Observer;
use st_memory::Memory;
use std::alloc::Global;

/// What came of an attempt.
#[derive(Drop)]
pub struct Attempted {
    pub found: Found,
    /// How many queries were asked.
    pub queries: u64,
}

/// Whether an attempt is made: early ones, and those with equations, are only where the program has some.
fn is_made(alloc: Global, subject: &Subject, attempt: Attempt) -> Result<bool, Memory> {
    if attempt.early.is_none() && !attempt.equations {
        return Ok(true);
    }
    has_equations(alloc, subject)
}

/// Looks for proofs of the goals of a text: of each invariance without `by` and `using`, and of each response `by find`. The other steps
/// are given, and may be cited. What is found is the text itself, with found steps in front of the goals, and with how these are shown.
///
/// Who calls judges what is found: whether a text is a proof, and whether a goal fails on a run. Of the attempts each is made where those
/// in front of it came to nothing, with its share of the queries that are left. The observer is told how far the search is.
///
/// # Errors
/// The first fault of either text; want of memory.
pub fn attempt_proofs<O: Observer>(
    alloc: Global,
    program: &[u8],
    proof: &[u8],
    attempt: Attempt,
    budget: u64,
    observer: &O,
) -> Result<Attempted, FindFault>
    ensures { IfOk result (λ attempted. attempted.queries ≤ budget) }
{
    let subject = read_subject(alloc, program)?;
    let request = read_request(alloc, proof, &subject.names, &subject.system)?;
    if !is_made(alloc, &subject, attempt)? {
        return Ok(Attempted {
            found: unmade(alloc, &request)?,
            queries: 0,
        });
    }
    let (found, queries) = progressed(alloc, &subject, proof, &request, attempt, budget, observer)?;
    Ok(Attempted { found, queries })
}

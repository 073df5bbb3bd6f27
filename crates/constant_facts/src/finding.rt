//! The greatest set of facts that the start gives and every mode keeps, among the candidates.
//!
//! This is constant propagation at each location over the interleaved program (Kildall, A unified approach to global program
//! optimization, POPL 1973), from above: all candidates are supposed, and those that aren't given by the start or aren't kept by some
//! mode, where the others hold, are given up until none is (Flanagan and Leino, Houdini, an annotation assistant for ESC/Java, FME
//! 2001). Modes are tried in text order, so the rounds are few: one more than a wrong fact is carried back through loops.

ghost use Rattle.std.specs.Prelude.{◌≡◌, IfOk};
ghost use Rattle.transition_system.specs.Plain.{plain_system};
ghost use Rattle.constant_facts.specs.Facts.{AreInductive};
ghost use Rattle.constant_facts.specs.Greatest.{IsGreatest};
ghost use Rattle.constant_facts.specs.Rules.{narrowed};

use crate::candidates::candidates;
use crate::fact::Fact;
use crate::fault::FactFault;
use crate::keeping::kept_by_all;
use crate::starting::first_of;
use control_states::Components;
use st_memory::Memory;
use std::alloc::Global;
use transition_system::Fts;

/// One round: the facts that the start gives, and of these those that all modes in turn keep.
fn narrowed(
    alloc: Global,
    components: &Components,
    fts: &Fts,
    facts: &[Fact],
) -> Result<Vec<Fact>, Memory>
    ensures { IfOk result (λ v. v.items ≡ narrowed components.now (plain_system fts.now) facts.now) }
{
    let first = first_of(alloc, components, &fts.initial, facts)?;
    kept_by_all(alloc, components, &fts.transitions, first)
}

/// Those of the facts that stay where each round gives up those that the start doesn't give or some mode doesn't keep, until none is
/// given up: the greatest set among them that the rules admit.
pub fn settled(
    alloc: Global,
    components: &Components,
    fts: &Fts,
    facts: Vec<Fact>,
) -> Result<Vec<Fact>, Memory>
    ensures inductive { IfOk result (λ v. AreInductive components.now (plain_system fts.now) v.items) }
    ensures greatest { IfOk result (λ v. IsGreatest components.now (plain_system fts.now) facts.items v.items) }
{
    let mut left = facts;
    loop {
        let next = narrowed(alloc, components, fts, &left)?;
        if next.len() == left.len() {
            return Ok(left);
        }
        left = next;
    }
}

/// Facts about the values of variables at these locations that the start gives and every mode keeps.
///
/// What is kept is said by constants and copies of variables alone: a value that is computed isn't known. `Many` where there are more
/// than 2^16 pairs of a location and a value to try.
pub fn find(
    alloc: Global,
    fts: &Fts,
    components: &Components,
    places: &[u32],
) -> Result<Vec<Fact>, FactFault>
    ensures inductive { IfOk result (λ v. AreInductive components.now (plain_system fts.now) v.items) }
{
    let facts = candidates(alloc, fts, places)?;
    let facts = settled(alloc, components, fts, facts)?;
    Ok(facts)
}

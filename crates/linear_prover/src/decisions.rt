//! Problems with one decision more.
//!
//! Only those conjuncts are simplified again that have a decided literal.

ghost use Rattle.std.specs.Prelude.{◌≡◌, ◌<◌, IfOk, length, slice_set, true, Some};
ghost use Rattle.st_form.specs.Plain.{plain, plain_list};
ghost use Rattle.st_form.specs.Simple.{append, parts, gathered, simple, simples, tabled};
ghost use Rattle.farkas_check.specs.Problem.{posed, truth_problem};
ghost use Rattle.std.specs.Option.{option_map};
ghost use Rattle.farkas_check.specs.Limits.{IsSettled, AreSettled};
ghost use Rattle.search_laws.specs.Steady.{IsSteady, AreSteady};
ghost use Rattle.linear_prover.specs.Plain.{plain_each, plain_made, plain_node};

use crate::joining::with_part;
use crate::problems::{Conjunct, Node, form};
use crate::touching::touches;
use control_states::{Alternative, Components};
use st_form::Form;
use st_memory::Memory;
use std::alloc::Global;

/// Conjuncts with one more under these decisions, or None where it is false. It is lent where nothing in it is decided.
fn with_conjunct<'b>(
    alloc: Global,
    out: Vec<Conjunct<'b>>,
    f: &'b Form,
    truths: &[Option<bool>],
    places: &[Option<bool>],
) -> Result<Option<Vec<Conjunct<'b>>>, Memory>
    requires settled { IsSettled (plain f.now) }
    requires steady { IsSteady (plain f.now) true }
    ensures { IfOk result (λ o. plain_made o
        ≡ option_map (append (plain_each out.entry.items)) (parts true (simple (tabled truths.now places.now) (plain f.now) true))) }
{
    if touches(f, truths, places) {
        let part = f.simplified(alloc, truths, places, true)?;
        return with_part(alloc, out, part);
    }
    let mut all = out;
    all.push(Conjunct::Kept(f))?;
    Ok(Some(all))
}

/// The conjuncts under these decisions, or None where one of them is false.
fn under<'b, 'x>(
    alloc: Global,
    fs: &'b [Conjunct<'x>],
    truths: &[Option<bool>],
    places: &[Option<bool>],
) -> Result<Option<Vec<Conjunct<'b>>>, Memory>
    requires settled { AreSettled (plain_each fs.now) }
    requires steady { AreSteady (plain_each fs.now) true }
    ensures { IfOk result (λ o. plain_made o ≡ gathered true (simples (tabled truths.now places.now) (plain_each fs.now) true)) }
{
    let mut out = Vec::with_capacity(alloc, fs.len())?;
    for f in fs {
        let lent = form(f);
        match with_conjunct(alloc, out, lent, truths, places)? {
            None => return Ok(None),
            Some(next) => {
                out = next;
            }
        }
    }
    Ok(Some(out))
}

/// The problem of these conjuncts under these decisions.
fn pose<'b, 'x>(
    alloc: Global,
    components: &Components,
    cases: Vec<Option<Alternative>>,
    truths: Vec<Option<bool>>,
    fs: &'b [Conjunct<'x>],
) -> Result<Node<'b>, Memory>
    requires settled { AreSettled (plain_each fs.now) }
    requires steady { AreSteady (plain_each fs.now) true }
    ensures { IfOk result (λ n. plain_node n ≡ posed components.now cases.items truths.items (plain_each fs.now)) }
{
    let places = components.places(alloc, cases.as_slice())?;
    let conjuncts = under(alloc, fs, truths.as_slice(), places.as_slice())?;
    Ok(Node {
        cases,
        truths,
        conjuncts,
    })
}

/// The problem with a component decided.
pub fn with_case<'b, 'x>(
    alloc: Global,
    components: &Components,
    node: &Node,
    fs: &'b [Conjunct<'x>],
    component: u32,
    to: Alternative,
) -> Result<Node<'b>, Memory>
    requires settled { AreSettled (plain_each fs.now) }
    requires steady { AreSteady (plain_each fs.now) true }
    requires there { component < length node.now.cases.items }
    ensures { IfOk result (λ n. plain_node n
        ≡ posed components.now (slice_set node.now.cases.items component (Some to)) node.now.truths.items (plain_each fs.now)) }
{
    let mut cases = Vec::from_slice(alloc, node.cases.as_slice())?;
    cases[component as usize] = Some(to);
    let truths = Vec::from_slice(alloc, node.truths.as_slice())?;
    pose(alloc, components, cases, truths, fs)
}

/// The problem with a boolean variable decided.
pub fn with_truth<'b, 'x>(
    alloc: Global,
    components: &Components,
    node: &Node,
    fs: &'b [Conjunct<'x>],
    var: u32,
    to: bool,
) -> Result<Node<'b>, Memory>
    requires settled { AreSettled (plain_each fs.now) }
    requires steady { AreSteady (plain_each fs.now) true }
    requires there { var < length node.now.truths.items }
    ensures { IfOk result (λ n. plain_node n ≡ truth_problem components.now (plain_node node.now) (plain_each fs.now) var to) }
{
    let cases = Vec::from_slice(alloc, node.cases.as_slice())?;
    let mut truths = Vec::from_slice(alloc, node.truths.as_slice())?;
    truths[var as usize] = Some(to);
    pose(alloc, components, cases, truths, fs)
}

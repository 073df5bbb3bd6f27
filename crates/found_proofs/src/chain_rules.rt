//! Chains as the rules that they are: a chain, items with ranks, items that wait for one compassionate transition, or a net that has both.

ghost use Rattle.std.specs.Prelude.{◌≡◌, length};

use crate::schedules::push_transition;
use crate::subject::Subject;
use control_cubes::CubeFault;
use response_search::{Chain, ChainItem, Measure, Ranks};
use st_form::Lin;
use st_memory::Memory;
use st_program::NameTable;
use std::alloc::Global;
use step_report::{push_sum, push_text};

/// Which rule a chain is.
#[derive(Clone, Copy, PartialEq, Eq)]
enum Rule {
    Chain,
    /// All items wait for the transition with this number.
    Fair(u32),
    Net,
}

/// The rule of a list of items.
fn rule_of(items: &[ChainItem]) -> Rule {
    if items.iter().all(|item| item.awaited().is_none()) {
        return Rule::Chain;
    }
    match items.first() {
        Some(first) if items.iter().all(|item| item.is_beside(first)) => match first.awaited() {
            Some(transition) => Rule::Fair(transition),
            None => Rule::Chain,
        },
        _ => Rule::Net,
    }
}

/// Appends what stands between the bound and the items.
fn push_head(subject: &Subject, rule: Rule, out: &mut Vec<u8>) -> Result<(), Memory> {
    match rule {
        Rule::Chain => push_text(out, b" by chain ["),
        Rule::Net => push_text(out, b" by net ["),
        Rule::Fair(transition) => {
            push_text(out, b" by fair ")?;
            push_transition(subject, transition, out)?;
            push_text(out, b" [")
        }
    }
}

/// Appends a transition behind a word, if there is one.
fn push_named(
    subject: &Subject,
    word: &[u8],
    transition: Option<u32>,
    out: &mut Vec<u8>,
) -> Result<(), Memory> {
    match transition {
        Some(number) => {
            push_text(out, word)?;
            push_transition(subject, number, out)
        }
        None => Ok(()),
    }
}

/// Appends the numbers of a node, and its group.
fn push_measure(
    alloc: Global,
    subject: &Subject,
    item: &ChainItem,
    measure: Measure,
    out: &mut Vec<u8>,
) -> Result<(), Memory> {
    let text = format!(in alloc;
        " base {} delay {} top {}",
        measure.base, measure.delay, measure.top
    )?;
    push_text(out, text.as_bytes())?;
    push_named(subject, b" group ", item.awaited(), out)
}

/// Appends an item.
fn push_item(
    alloc: Global,
    subject: &Subject,
    item: &ChainItem,
    measure: Option<Measure>,
    out: &mut Vec<u8>,
) -> Result<(), Memory> {
    push_text(out, &item.text(alloc)?)?;
    if let Some(measure) = measure {
        push_measure(alloc, subject, item, measure, out)?;
    }
    push_named(subject, b" helper ", item.helper(), out)
}

/// Appends a sum behind a word. `variables` is the number of variables.
fn push_measured(
    names: &NameTable,
    variables: u32,
    word: &[u8],
    sum: &Lin,
    out: &mut Vec<u8>,
) -> Result<(), Memory>
    requires { variables ≡ length names.now.variables }
{
    push_text(out, word)?;
    push_sum(out, names, variables, sum)
}

/// Appends the items by ranks: the one nearest to the beginning of the text first.
fn push_ranked(
    alloc: Global,
    subject: &Subject,
    items: &[ChainItem],
    ranks: &Ranks,
    out: &mut Vec<u8>,
) -> Result<(), Memory> {
    let mut lead = b"\n  ".as_slice();
    for (item, rank) in items.iter().zip(&ranks.of_items) {
        push_text(out, lead)?;
        push_text(out, &item.text(alloc)?)?;
        push_measured(&subject.names, subject.variables, b" rank ", rank, out)?;
        push_named(subject, b" helper ", item.helper(), out)?;
        lead = b";\n  ".as_slice();
    }
    Ok(())
}

/// Appends the items by their places: the farthest first.
fn push_placed(
    alloc: Global,
    subject: &Subject,
    chain: &Chain,
    rule: Rule,
    out: &mut Vec<u8>,
) -> Result<(), Memory> {
    let measures = chain.measures(alloc)?;
    let mut lead = b"\n  ".as_slice();
    for (item, measure) in chain.items.iter().rev().zip(measures.iter().rev()) {
        push_text(out, lead)?;
        let shown = if rule == Rule::Net {
            Some(*measure)
        } else {
            None
        };
        push_item(alloc, subject, item, shown, out)?;
        lead = b";\n  ".as_slice();
    }
    Ok(())
}

/// The bound and the rule as they stand behind the goal of a response.
pub(crate) fn rule_text(
    alloc: Global,
    subject: &Subject,
    chain: &Chain,
) -> Result<Vec<u8>, CubeFault> {
    let bound = chain.bound(alloc)?;
    let mut out = Vec::new(alloc);
    push_measured(
        &subject.names,
        subject.variables,
        b"within ",
        &bound,
        &mut out,
    )?;
    match &chain.ranks {
        Some(ranks) => {
            push_text(&mut out, b" by ranked [")?;
            push_ranked(alloc, subject, &chain.items, ranks, &mut out)?;
        }
        None => {
            let rule = rule_of(&chain.items);
            push_head(subject, rule, &mut out)?;
            push_placed(alloc, subject, chain, rule, &mut out)?;
        }
    }
    push_text(&mut out, b" ]")?;
    Ok(out)
}

//! What each premise says, in words. The premises are those of the rules of Manna and Pnueli: *Temporal Verification of Reactive
//! Systems: Safety* (1995) for invariance and nested waiting-for, of their *Progress* for response, and *Temporal Verification
//! Diagrams* (1994).

use st_form::Premise;
use st_memory::Memory;
use std::alloc::Global;
use temporal_goals::{Goal, RuleText, Step};

/// What the parts of a rule are called.
fn part_word(rule: &RuleText) -> &'static str {
    match rule {
        RuleText::Net(_) | RuleText::Nested(_) => "item",
        RuleText::Levels(_) => "level",
        RuleText::Diagram(_) => "node",
        RuleText::Basic | RuleText::Stronger(_) => "part",
    }
}

/// A part of a rule with its number: items of nets count from 1, levels and nodes of diagrams have numbers of their own.
pub(crate) fn part_text(alloc: Global, step: &Step, node: Option<u32>) -> Result<String, Memory> {
    let word = part_word(&step.rule);
    let Some(node) = node else {
        return Ok(String::from_str(alloc, word)?);
    };
    let number = match step.rule {
        RuleText::Net(_) | RuleText::Nested(_) => u64::from(node).saturating_add(1),
        RuleText::Levels(_) | RuleText::Diagram(_) | RuleText::Basic | RuleText::Stronger(_) => {
            u64::from(node)
        }
    };
    Ok(format!(in alloc; "{word} {number}")?)
}

/// What a cover says.
fn cover_sentence(alloc: Global, step: &Step) -> Result<String, Memory> {
    let name = step.name.as_str();
    match step.goal {
        Goal::Response(_, _, _) => Ok(format!(in alloc;
            "where `{name}` begins, its goal holds, or one of its parts within the bound"
        )?),
        Goal::Waiting(_, _) | Goal::Invariant(_) => Ok(format!(in alloc;
            "where `{name}` begins, one of its parts holds"
        )?),
    }
}

/// What a condition says of its step: `part` is the part of the rule that it is of, `taken` the transition that it takes.
pub(crate) fn sentence(
    alloc: Global,
    step: &Step,
    premise: Premise,
    part: &str,
    taken: &str,
) -> Result<String, Memory> {
    let name = step.name.as_str();
    match premise {
        Premise::Implies => Ok(format!(in alloc;
            "what stands behind `by` in `{name}` implies the claim"
        )?),
        Premise::Start => Ok(format!(in alloc; "the formula of `{name}` holds at the start")?),
        Premise::Keep => Ok(format!(in alloc; "{taken} keeps the formula of `{name}`")?),
        Premise::Cover => cover_sentence(alloc, step),
        Premise::Level => Ok(format!(in alloc;
            "{part} of `{name}` implies the goal's formula of that level"
        )?),
        Premise::Target => Ok(format!(in alloc; "the terminal node of `{name}` implies the goal")?),
        Premise::Rank => Ok(format!(in alloc; "the numbers of {part} of `{name}` are ranks")?),
        Premise::Help => Ok(format!(in alloc;
            "what {part} of `{name}` waits for is enabled there"
        )?),
        Premise::Move => Ok(format!(in alloc;
            "{taken} leads from {part} of `{name}` only where the rule allows it"
        )?),
    }
}

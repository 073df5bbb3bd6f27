//! Nested waiting-for, by levels or by a diagram.

ghost use Rattle.std.specs.Prelude.{◌≡◌, ◌≤◌, IfOk, map};
ghost use Rattle.st_tokens.specs.Stream.{stream};
ghost use Rattle.st_reading.specs.Reading.{Reads, size};
ghost use Rattle.st_form.specs.Plain.{plain};
ghost use Rattle.temporal_goals.specs.Plain.{plain_goal, plain_rule};
ghost use Rattle.proof_script.specs.Faults.{see};
ghost use Rattle.proof_script.specs.Listing.{setting_view};
ghost use Rattle.proof_script.specs.Steps.{ends_rule, waiting_goal_of, matched_of, levels_of, wait_diagram_of, waiting_by_of, waiting_of};

use crate::fault::{ScriptFault, ScriptKind};
use crate::lists::{further, listed};
use crate::setting::Setting;
use crate::units::{formula, listed_formula};
use diagram_reader::read_diagram;
use st_form::Form;
use st_reading::{Mark, Sign, advance, ahead, expect, is, refusal};
use st_tokens::Tokens;
use std::alloc::Global;
use temporal_goals::{DiagramKind, Goal, RuleText};

/// The formulas of nested waiting-for: where it is claimed, and what holds in turn from there on.
#[tactic(auto, unfolding(crate::specs::Steps::waiting_goal_of))]
fn waiting_goal(
    alloc: Global,
    setting: &Setting<'_>,
    tokens: &mut Tokens<'_>,
) -> Result<(Form, Vec<Form>), ScriptFault>
    ensures reads { Reads see (λ w. (plain w.0, map plain w.1.items)) result (stream tokens.new) (waiting_goal_of (setting_view setting.now) (stream tokens.old)) }
    ensures shrinks { IfOk result (λ _. size (stream tokens.new) ≤ size (stream tokens.old)) }
{
    let start = formula(alloc, setting, tokens)?;
    expect(tokens, Mark::Unless)?;
    let mut forms = Vec::new(alloc);
    let form = listed_formula(alloc, setting, 0, tokens)?;
    forms.push(form)?;
    expect(tokens, Mark::Wait)?;
    let form = listed_formula(alloc, setting, 1, tokens)?;
    forms.push(form)?;
    let forms = further(alloc, setting, Mark::Wait, forms, tokens)?;
    Ok((start, forms))
}

/// Whether a rule ends there.
fn ends_rule(sign: Sign) -> bool
    ensures { result ≡ ends_rule sign }
{
    is(sign, Mark::Using) || is(sign, Mark::Semicolon)
}

/// The levels behind `by` at the place, once their end has been seen: there are as many as the goal has formulas.
#[tactic(auto, unfolding(crate::specs::Steps::matched_of))]
fn matched(
    place: u64,
    count: usize,
    levels: Vec<Form>,
    tokens: &Tokens<'_>,
) -> Result<RuleText, ScriptFault>
    ensures { Reads see plain_rule result (stream tokens.now) (matched_of place count (map plain levels.items) (stream tokens.now)) }
{
    if !ends_rule(ahead(tokens)) {
        return Err(ScriptFault::from(refusal(tokens)));
    }
    if levels.len() != count {
        return Err(ScriptFault::At(ScriptKind::WrongCount, place));
    }
    Ok(RuleText::Levels(levels))
}

/// The levels behind `by` at the place, for a goal of so many formulas.
#[tactic(auto, unfolding(crate::specs::Steps::levels_of))]
fn levels(
    alloc: Global,
    setting: &Setting<'_>,
    count: usize,
    place: u64,
    tokens: &mut Tokens<'_>,
) -> Result<RuleText, ScriptFault>
    ensures reads { Reads see plain_rule result (stream tokens.new) (levels_of (setting_view setting.now) place count (stream tokens.old)) }
    ensures shrinks { IfOk result (λ _. size (stream tokens.new) ≤ size (stream tokens.old)) }
{
    let levels = listed(alloc, setting, Mark::Comma, tokens)?;
    matched(place, count, levels, tokens)
}

/// A wait diagram, for a goal of so many formulas.
#[tactic(auto, unfolding(crate::specs::Steps::wait_diagram_of))]
fn wait_diagram(
    alloc: Global,
    setting: &Setting<'_>,
    count: usize,
    tokens: &mut Tokens<'_>,
) -> Result<RuleText, ScriptFault>
    requires { count ≤ 64 }
    ensures reads { Reads see plain_rule result (stream tokens.new) (wait_diagram_of (setting_view setting.now) count (stream tokens.old)) }
    ensures shrinks { IfOk result (λ _. size (stream tokens.new) ≤ size (stream tokens.old)) }
{
    expect(tokens, Mark::Wait)?;
    let highest = count.saturating_sub(1) as u32;
    let (names, fts) = (setting.names, setting.fts);
    let diagram = read_diagram(alloc, tokens, DiagramKind::Wait, highest, names, fts)?;
    Ok(RuleText::Diagram(diagram))
}

/// Levels or a diagram, behind `by` at the place, for a goal of so many formulas.
#[tactic(auto, unfolding(crate::specs::Steps::waiting_by_of))]
fn waiting_by(
    alloc: Global,
    setting: &Setting<'_>,
    count: usize,
    place: u64,
    tokens: &mut Tokens<'_>,
) -> Result<RuleText, ScriptFault>
    requires { count ≤ 64 }
    ensures reads { Reads see plain_rule result (stream tokens.new) (waiting_by_of (setting_view setting.now) count place (stream tokens.old)) }
    ensures shrinks { IfOk result (λ _. size (stream tokens.new) ≤ size (stream tokens.old)) }
{
    if !is(ahead(tokens), Mark::Diagram) {
        return levels(alloc, setting, count, place, tokens);
    }
    advance(tokens);
    wait_diagram(alloc, setting, count, tokens)
}

/// Nested waiting-for, by levels or by a diagram.
#[tactic(auto, unfolding(crate::specs::Steps::waiting_of))]
pub fn waiting(
    alloc: Global,
    setting: &Setting<'_>,
    tokens: &mut Tokens<'_>,
) -> Result<(Goal, RuleText), ScriptFault>
    ensures reads { Reads see (λ c. (plain_goal c.0, plain_rule c.1)) result (stream tokens.new) (waiting_of (setting_view setting.now) (stream tokens.old)) }
    ensures shrinks { IfOk result (λ _. size (stream tokens.new) ≤ size (stream tokens.old)) }
{
    let (start, forms) = waiting_goal(alloc, setting, tokens)?;
    let place = expect(tokens, Mark::By)?;
    let rule = waiting_by(alloc, setting, forms.len(), place, tokens)?;
    Ok((Goal::Waiting(start, forms), rule))
}

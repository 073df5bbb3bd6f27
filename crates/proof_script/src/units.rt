//! The units of a script that are judged as a whole: formulas, integer expressions and transitions.

ghost use Rattle.std.specs.Prelude.{◌≡◌, ◌≤◌, IfOk};
ghost use Rattle.st_tokens.specs.Stream.{stream};
ghost use Rattle.st_reading.specs.Reading.{Reads, size};
ghost use Rattle.st_form.specs.Plain.{plain};
ghost use Rattle.std.specs.Option.{option_map};
ghost use Rattle.assertions.specs.Faults as forms;
ghost use Rattle.proof_script.specs.Faults.{see, past};
ghost use Rattle.proof_script.specs.Listing.{setting_view, formula_of, sum_of, listed_formula_of, transition_of, just_of, compassionate_of};

use crate::fault::{ScriptFault, ScriptKind};
use crate::setting::Setting;
use assertions::{FormFault, read_form, read_linear};
use diagram_reader::read_transition;
use ranked_net::fairness::{is_uncompassionate, is_unfair};
use st_form::{Form, Lin};
use st_reading::place_of;
use st_tokens::{LimitKind, Tokens};
use std::alloc::Global;

/// How many formulas, levels or nodes may be listed.
const LISTED: usize = 64;

/// Reads a formula.
#[tactic(auto, unfolding(crate::specs::Listing::formula_of))]
pub fn formula(
    alloc: Global,
    setting: &Setting<'_>,
    tokens: &mut Tokens<'_>,
) -> Result<Form, ScriptFault>
    ensures reads { Reads see plain result (stream tokens.new) (formula_of (setting_view setting.now) (stream tokens.old)) }
    ensures shrinks { IfOk result (λ _. size (stream tokens.new) ≤ size (stream tokens.old)) }
{
    Ok(read_form(alloc, tokens, setting.names)?)
}

/// Reads an integer expression.
#[tactic(auto, unfolding(crate::specs::Listing::sum_of))]
pub fn sum(
    alloc: Global,
    setting: &Setting<'_>,
    tokens: &mut Tokens<'_>,
) -> Result<Lin, ScriptFault>
    ensures reads { Reads see (λ f. f) result (stream tokens.new) (sum_of (setting_view setting.now) (stream tokens.old)) }
    ensures shrinks { IfOk result (λ _. size (stream tokens.new) ≤ size (stream tokens.old)) }
{
    Ok(read_linear(alloc, tokens, setting.names)?)
}

/// The fault of a formula at the place, behind as many as may be listed: one of the grammar comes before the limit.
fn past(place: u64, fault: FormFault) -> ScriptFault
    ensures { see result ≡ option_map (past place) (forms.see fault) }
{
    match fault {
        FormFault::Syntax(_) | FormFault::Token(_) | FormFault::Nesting(_) | FormFault::Memory => {
            ScriptFault::from(fault)
        }
        _ => ScriptFault::At(ScriptKind::Limit(LimitKind::Nodes), place),
    }
}

/// Reads a formula that is listed, or with which what is listed begins, behind so many others.
#[tactic(auto, unfolding(crate::specs::Listing::listed_formula_of))]
pub fn listed_formula(
    alloc: Global,
    setting: &Setting<'_>,
    before: usize,
    tokens: &mut Tokens<'_>,
) -> Result<Form, ScriptFault>
    ensures reads { Reads see plain result (stream tokens.new) (listed_formula_of (setting_view setting.now) before (stream tokens.old)) }
    ensures shrinks { IfOk result (λ _. size (stream tokens.new) ≤ size (stream tokens.old)) }
{
    if before < LISTED {
        return formula(alloc, setting, tokens);
    }
    let place = place_of(tokens);
    match read_form(alloc, tokens, setting.names) {
        Ok(_) => Err(ScriptFault::At(ScriptKind::Limit(LimitKind::Nodes), place)),
        Err(fault) => Err(past(place, fault)),
    }
}

/// Reads the name of a transition, and gives its number and the place of its first token.
#[tactic(auto, unfolding(crate::specs::Listing::transition_of))]
fn transition(setting: &Setting<'_>, tokens: &mut Tokens<'_>) -> Result<(u32, u64), ScriptFault>
    ensures reads { Reads see (λ t. t) result (stream tokens.new) (transition_of (setting_view setting.now) (stream tokens.old)) }
    ensures shrinks { IfOk result (λ _. size (stream tokens.new) ≤ size (stream tokens.old)) }
{
    Ok(read_transition(tokens, setting.names, setting.fts)?)
}

/// Reads the name of a just transition.
#[tactic(auto, unfolding(crate::specs::Listing::just_of))]
pub fn just(setting: &Setting<'_>, tokens: &mut Tokens<'_>) -> Result<u32, ScriptFault>
    ensures reads { Reads see (λ t. t) result (stream tokens.new) (just_of (setting_view setting.now) (stream tokens.old)) }
    ensures shrinks { IfOk result (λ _. size (stream tokens.new) ≤ size (stream tokens.old)) }
{
    let (number, place) = transition(setting, tokens)?;
    if is_unfair(setting.fts, Some(number)) {
        return Err(ScriptFault::At(ScriptKind::UnfairHelper, place));
    }
    Ok(number)
}

/// Reads the name of a compassionate transition.
#[tactic(auto, unfolding(crate::specs::Listing::compassionate_of))]
pub fn compassionate(setting: &Setting<'_>, tokens: &mut Tokens<'_>) -> Result<u32, ScriptFault>
    ensures reads { Reads see (λ t. t) result (stream tokens.new) (compassionate_of (setting_view setting.now) (stream tokens.old)) }
    ensures shrinks { IfOk result (λ _. size (stream tokens.new) ≤ size (stream tokens.old)) }
{
    let (number, place) = transition(setting, tokens)?;
    if is_uncompassionate(setting.fts, Some(number)) {
        return Err(ScriptFault::At(ScriptKind::NotCompassionate, place));
    }
    Ok(number)
}

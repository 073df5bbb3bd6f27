//! The condition that isn't discharged.

ghost use Rattle.std.specs.Prelude.{◌≡◌, ◌++◌, map, slice_get, OnOk};
ghost use Rattle.std.specs.Option.{option_map};
ghost use Rattle.temporal_goals.specs.Plain.{plain_rule, plain_step};
ghost use Rattle.step_report.specs.Conditions.{premise_text, node_number, node_text, mode_text, name_text, reason_text, not_proved_text};

use crate::naming::push_transition;
use crate::pushing::{push_number, push_text};
use st_form::{CondName, Premise, TransName};
use st_memory::Memory;
use st_program::NameTable;
use temporal_goals::{RuleText, Step};

/// Why a condition isn't discharged: by the block of its number, or by a search.
#[derive(Clone, Copy, Debug, PartialEq, Eq)]
pub enum Reason {
    /// The text ends before the block.
    Absent,
    Malformed,
    OverLimit,
    NotValid,
    /// The search left a problem open.
    Open,
    /// The search gave up.
    Wide,
}

fn premise_text(premise: Premise) -> &'static [u8]
    ensures { result.now ≡ premise_text premise }
{
    match premise {
        Premise::Implies => b"implies".as_slice(),
        Premise::Start => b"start".as_slice(),
        Premise::Keep => b"keep".as_slice(),
        Premise::Cover => b"cover".as_slice(),
        Premise::Level => b"level".as_slice(),
        Premise::Target => b"target".as_slice(),
        Premise::Rank => b"rank".as_slice(),
        Premise::Help => b"help".as_slice(),
        Premise::Move => b"move".as_slice(),
    }
}

/// Nodes of nets count from 1; levels, and nodes of diagrams, have numbers of their own.
fn node_number(rule: &RuleText, node: u32) -> u64
    ensures { result ≡ node_number (plain_rule rule.now) node }
{
    match rule {
        RuleText::Net(_) => u64::from(node) + 1,
        RuleText::Nested(_) => u64::from(node) + 1,
        RuleText::Levels(_) => u64::from(node),
        RuleText::Diagram(_) => u64::from(node),
        RuleText::Basic => u64::from(node),
        RuleText::Stronger(_) => u64::from(node),
    }
}

fn push_node(out: &mut Vec<u8>, rule: &RuleText, node: Option<u32>) -> Result<(), Memory>
    ensures { OnOk result (out.new.items ≡ out.old.items ++ node_text (plain_rule rule.now) node) }
{
    match node {
        None => Ok(()),
        Some(node) => {
            push_text(out, b" ")?;
            push_number(out, node_number(rule, node))
        }
    }
}

fn push_mode(
    out: &mut Vec<u8>,
    names: &NameTable,
    transition: Option<TransName>,
    mode: u32,
) -> Result<(), Memory>
    ensures { OnOk result (out.new.items ≡ out.old.items ++ mode_text names.now transition mode) }
{
    match transition {
        None => Ok(()),
        Some(transition) => {
            push_text(out, b" ")?;
            push_transition(out, names, transition)?;
            push_text(out, b" ")?;
            push_number(out, u64::from(mode))
        }
    }
}

fn push_name(
    out: &mut Vec<u8>,
    names: &NameTable,
    step: Option<&Step>,
    name: &CondName,
) -> Result<(), Memory>
    ensures { OnOk result (out.new.items ≡ out.old.items ++ name_text names.now (option_map (λ s. plain_step s.now) step.entry) name.now) }
{
    match step {
        None => Ok(()),
        Some(step) => {
            push_text(out, step.name.as_bytes())?;
            push_text(out, b" ")?;
            push_text(out, premise_text(name.premise))?;
            push_node(out, &step.rule, name.node)?;
            push_mode(out, names, name.trans, name.mode)
        }
    }
}

/// The name of a condition of these steps.
#[tactic(auto, using(crate::proofs::Pieces::step_of))]
fn push_name_among(
    out: &mut Vec<u8>,
    names: &NameTable,
    steps: &[Step],
    name: &CondName,
) -> Result<(), Memory>
    ensures { OnOk result (out.new.items ≡ out.old.items ++ name_text names.now (slice_get (map plain_step steps.now) name.now.step) name.now) }
{
    push_name(out, names, steps.get(name.step as usize), name)
}

fn reason_text(reason: Reason) -> &'static [u8]
    ensures { result.now ≡ reason_text reason }
{
    match reason {
        Reason::Absent => b"absent".as_slice(),
        Reason::Malformed => b"malformed".as_slice(),
        Reason::OverLimit => b"over a limit".as_slice(),
        Reason::NotValid => b"not valid".as_slice(),
        Reason::Open => b"open".as_slice(),
        Reason::Wide => b"wide".as_slice(),
    }
}

/// Appends the line for a condition of these steps that isn't discharged. Its number counts from 1.
pub fn not_proved(
    out: &mut Vec<u8>,
    names: &NameTable,
    steps: &[Step],
    number: u32,
    name: &CondName,
    reason: Reason,
) -> Result<(), Memory>
    ensures { OnOk result (out.new.items ≡ out.old.items ++ not_proved_text names.now (map plain_step steps.now) number name.now reason) }
{
    push_text(out, b"not proved: condition ")?;
    push_number(out, u64::from(number))?;
    push_text(out, b", ")?;
    push_name_among(out, names, steps, name)?;
    push_text(out, b", ")?;
    push_text(out, reason_text(reason))?;
    push_text(out, b"\n")
}

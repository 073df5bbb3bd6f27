//! Each case of where a step from a node may lead: to the end, by a drop to any node, by a free move or an inner drop within
//! the group, or not away.

ghost use Rattle.std.specs.Prelude.{◌≡◌, ◌++◌, IfOk, OnOk, map};
ghost use Rattle.st_form.specs.Plain.{plain};
ghost use Rattle.temporal_goals.specs.Plain.{plain_node};
ghost use Rattle.vc_generator.specs.Plain.{plain_case};
ghost use Rattle.rule_laws.specs.RankedNet.{kept_pairs, case_end, case_drop, case_inner, case_stay};
ghost use Rattle.rule_fits.specs.Fitting.{CanFall};
ghost use Rattle.ranked_net.specs.Walk.{free_under, stay_cases};

use st_form::Form;
use st_linear::Lin;
use st_memory::Memory;
use std::alloc::Global;
use temporal_goals::Node;
use vc_generator::Case;

/// Behind the step the formula holds.
pub fn end_case(alloc: Global, end: &Form) -> Result<Case, Memory>
    ensures { IfOk result (λ c. plain_case c ≡ case_end (plain end.now)) }
{
    Ok(Case {
        now: Form::True,
        behind: end.copy(alloc)?,
        falls: Vec::new(alloc),
    })
}

/// A drop: the new top is below the old base.
pub(crate) fn drop_case(alloc: Global, node: &Node, next: &Node) -> Result<Case, Memory>
    requires { CanFall node.now.base }
    ensures { IfOk result (λ c. plain_case c ≡ case_drop (plain_node node.now) (plain_node next.now)) }
{
    let fall = (next.top.copy(alloc)?, node.base.lowered(alloc)?);
    Ok(Case {
        now: Form::True,
        behind: next.form.copy(alloc)?,
        falls: vec![in alloc; fall]?,
    })
}

/// Two forms, copied. What a function holds at several ends is dear to prove, so a pair is made by one call.
fn copied_pair(alloc: Global, first: &Lin, second: &Lin) -> Result<(Lin, Lin), Memory>
    ensures { IfOk result (λ p. p ≡ (first.now, second.now)) }
{
    let first = first.copy(alloc)?;
    Ok((first, second.copy(alloc)?))
}

/// Neither base nor top is raised.
fn push_kept(
    alloc: Global,
    node: &Node,
    next: &Node,
    falls: &mut Vec<(Lin, Lin)>,
) -> Result<(), Memory>
    ensures { OnOk result (falls.new.items ≡ falls.old.items ++ kept_pairs (plain_node node.now) (plain_node next.now)) }
{
    falls.push(copied_pair(alloc, &next.base, &node.base)?)?;
    falls.push(copied_pair(alloc, &next.top, &node.top)?)?;
    Ok(())
}

/// A free move: the group is enabled, and neither base nor top is raised.
pub(crate) fn free_case(
    alloc: Global,
    enabled: &Form,
    node: &Node,
    next: &Node,
) -> Result<Case, Memory>
    ensures { IfOk result (λ c. plain_case c ≡ free_under (plain enabled.now) (plain_node node.now) (plain_node next.now)) }
{
    let mut falls = Vec::new(alloc);
    push_kept(alloc, node, next, &mut falls)?;
    Ok(Case {
        now: enabled.copy(alloc)?,
        behind: next.form.copy(alloc)?,
        falls,
    })
}

/// An inner drop: the new delay is below the old one, and neither base nor top is raised.
pub(crate) fn inner_case(alloc: Global, node: &Node, next: &Node) -> Result<Case, Memory>
    requires { CanFall node.now.delay }
    ensures { IfOk result (λ c. plain_case c ≡ case_inner (plain_node node.now) (plain_node next.now)) }
{
    let fall = (next.delay.copy(alloc)?, node.delay.lowered(alloc)?);
    let mut falls = vec![in alloc; fall]?;
    push_kept(alloc, node, next, &mut falls)?;
    Ok(Case {
        now: Form::True,
        behind: next.form.copy(alloc)?,
        falls,
    })
}

/// The step stays on the node, and raises nothing.
fn stay_case(alloc: Global, node: &Node) -> Result<Case, Memory>
    ensures { IfOk result (λ c. plain_case c ≡ case_stay (plain_node node.now)) }
{
    let fall = copied_pair(alloc, &node.delay, &node.delay)?;
    let mut falls = vec![in alloc; fall]?;
    push_kept(alloc, node, node, &mut falls)?;
    Ok(Case {
        now: Form::True,
        behind: node.form.copy(alloc)?,
        falls,
    })
}

/// The last case, of a step of a transition that is neither the node's group nor its helper.
pub(crate) fn push_stay(alloc: Global, node: &Node, cases: &mut Vec<Case>) -> Result<(), Memory>
    ensures { OnOk result (map plain_case cases.new.items ≡ map plain_case cases.old.items ++ stay_cases (plain_node node.now)) }
{
    cases.push(stay_case(alloc, node)?)?;
    Ok(())
}

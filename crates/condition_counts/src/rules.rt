//! How many conditions a rule has. A rule asks some things once, and of each mode of the system one move for each formula, level or node from
//! which a step may begin (Manna and Pnueli, *Temporal Verification of Reactive Systems: Safety*, 1995, and *Progress*). A rule for another
//! goal asks one thing, which is never so. Where a number doesn't fit, the answer is want of memory: conditions that many have no room.

ghost use Rattle.std.specs.Prelude.{◌≡◌, ◌+◌, ◌*◌, IfOk, Some};
ghost use Rattle.temporal_goals.specs.Plain.{plain_goal, plain_rule};
ghost use Rattle.condition_counts.specs.Sums.{diagram_sum, invariance_sum, levels_sum, nodes_sum, response_sum, rule_sum, waiting_sum};

use st_memory::Memory;
use temporal_goals::{DiagramKind, Goal, RuleText};

/// A number that fits.
fn fitting(count: Option<u64>) -> Result<u64, Memory>
    ensures { IfOk result (λ n. count ≡ Some n) }
{
    match count {
        Some(count) => Ok(count),
        None => Err(Memory),
    }
}

/// The sum of two numbers.
pub(crate) fn added(one: u64, other: u64) -> Result<u64, Memory>
    ensures { IfOk result (λ n. n ≡ one + other) }
{
    fitting(one.checked_add(other))
}

/// So much once, and so many times what is asked of each mode.
fn sum(once: u64, times: u64, modes: u64) -> Result<u64, Memory>
    ensures { IfOk result (λ n. n ≡ once + times * modes) }
{
    let moves = fitting(times.checked_mul(modes))?;
    added(once, moves)
}

fn by_invariance(goal: &Goal, once: u64, modes: u64) -> Result<u64, Memory>
    ensures { IfOk result (λ n. n ≡ invariance_sum once modes (plain_goal goal.now)) }
{
    match goal {
        Goal::Invariant(_) => sum(once, 1, modes),
        Goal::Waiting(_, _) => Ok(1),
        Goal::Response(_, _, _) => Ok(1),
    }
}

fn by_levels(goal: &Goal, levels: usize, modes: u64) -> Result<u64, Memory>
    ensures { IfOk result (λ n. n ≡ levels_sum levels modes (plain_goal goal.now)) }
{
    match goal {
        Goal::Invariant(_) => Ok(1),
        Goal::Waiting(_, goals) => {
            let once = added(1, levels.min(goals.len()) as u64)?;
            sum(once, levels.saturating_sub(1) as u64, modes)
        }
        Goal::Response(_, _, _) => Ok(1),
    }
}

fn by_nodes(goal: &Goal, nodes: usize, modes: u64) -> Result<u64, Memory>
    ensures { IfOk result (λ n. n ≡ nodes_sum nodes modes (plain_goal goal.now)) }
{
    match goal {
        Goal::Invariant(_) => Ok(1),
        Goal::Waiting(_, _) => Ok(1),
        Goal::Response(_, _, _) => {
            let twice = added(nodes as u64, nodes as u64)?;
            let once = added(1, twice)?;
            sum(once, nodes as u64, modes)
        }
    }
}

fn by_waiting_diagram(kind: DiagramKind, nodes: usize, modes: u64) -> Result<u64, Memory>
    ensures { IfOk result (λ n. n ≡ waiting_sum kind nodes modes) }
{
    match kind {
        DiagramKind::Wait => sum(added(2, nodes as u64)?, nodes as u64, modes),
        DiagramKind::Chain => Ok(1),
        DiagramKind::Rank => Ok(1),
    }
}

fn by_response_diagram(kind: DiagramKind, nodes: usize, modes: u64) -> Result<u64, Memory>
    ensures { IfOk result (λ n. n ≡ response_sum kind nodes modes) }
{
    match kind {
        DiagramKind::Wait => Ok(1),
        DiagramKind::Chain => sum(added(2, nodes as u64)?, nodes as u64, modes),
        DiagramKind::Rank => {
            let twice = added(nodes as u64, nodes as u64)?;
            let once = added(2, twice)?;
            sum(once, nodes as u64, modes)
        }
    }
}

fn by_diagram(goal: &Goal, kind: DiagramKind, nodes: usize, modes: u64) -> Result<u64, Memory>
    ensures { IfOk result (λ n. n ≡ diagram_sum kind nodes modes (plain_goal goal.now)) }
{
    match goal {
        Goal::Invariant(_) => Ok(1),
        Goal::Waiting(_, _) => by_waiting_diagram(kind, nodes, modes),
        Goal::Response(_, _, _) => by_response_diagram(kind, nodes, modes),
    }
}

/// How many conditions a rule for a goal has, over a system with so many modes.
pub(crate) fn rule_count(goal: &Goal, rule: &RuleText, modes: u64) -> Result<u64, Memory>
    ensures { IfOk result (λ n. n ≡ rule_sum modes (plain_goal goal.now) (plain_rule rule.now)) }
{
    match rule {
        RuleText::Basic => by_invariance(goal, 1, modes),
        RuleText::Stronger(_) => by_invariance(goal, 2, modes),
        RuleText::Levels(levels) => by_levels(goal, levels.len(), modes),
        RuleText::Net(net) => by_nodes(goal, net.nodes.len(), modes),
        RuleText::Nested(net) => by_nodes(goal, net.nodes.len(), modes),
        RuleText::Diagram(drawn) => by_diagram(goal, drawn.kind, drawn.nodes.len(), modes),
    }
}

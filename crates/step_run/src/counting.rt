//! What is told of a workload: how many nodes the certificates of all its conditions have. Of each slice of conditions nothing
//! is kept but this number.

ghost use Rattle.std.specs.Prelude.{◌≡◌, ◌≤◌, ◌*◌, List, true, length, IfOk};
ghost use Rattle.st_certificate.specs.Tree.{Tree};
ghost use Rattle.search_laws.specs.Sizes.{nodes};
ghost use Rattle.step_plan.specs.Outcome.{ended_view};
ghost use Rattle.step_run.specs.Verified.{goals_counted, nodes_in, counted};
ghost use Rattle.step_run.specs.Deciding.{is_valid, tree_in, trees_in, AreValid, AreModest};
ghost use Rattle.step_run.specs.Views.{posed_view};
ghost use Rattle.step_run.specs.Ready.{IsReady};

use crate::deciding::next_valid;
use crate::posed::Posed;
use crate::reports::shown;
use control_facts::components;
use linear_prover::Verdict;
use st_memory::Memory;
use std::alloc::Global;
use step_plan::{Ended, Stage};
use step_report::node_count;

/// The number of nodes of a condition's certificate.
fn node_count_in(verdict: &Verdict) -> u64
    requires { nodes (tree_in verdict.now) ≤ 100000 }
    ensures count { (is_valid verdict.now ≡ true) → result ≡ nodes (tree_in verdict.now) }
    ensures most { result ≤ 100000 }
{
    match verdict {
        Verdict::Valid(certificate) => node_count(certificate),
        Verdict::Open(_, _) => 0,
        Verdict::Wide(_, _) => 0,
    }
}

/// The number of nodes of all certificates.
fn nodes_of(verdicts: &[Verdict]) -> u64
    requires valid { AreValid verdicts.now }
    requires modest { AreModest verdicts.now }
    requires few { length verdicts.now ≤ 20000 }
    ensures count { result ≡ nodes_in (trees_in verdicts.now) }
    ensures most { result ≤ 100000 * length verdicts.now }
{
    let mut count = 0u64;
    for verdict in verdicts {
        count += node_count_in(verdict);
    }
    count
}

/// The numbers of goals, of conditions, and of nodes of their certificates.
fn goals_counted(alloc: Global, posed: &Posed, nodes: u64) -> Result<Ended, Memory>
    ensures { IfOk result (λ e. (ts : List Tree) → nodes ≡ nodes_in ts → ended_view e ≡ goals_counted (posed_view posed.now) ts) }
{
    let mut text = Vec::new(alloc);
    step_report::counted(
        &mut text,
        &posed.script.steps,
        posed.conditions.len() as u64,
        nodes,
    )?;
    Ok(shown(text))
}

/// Decides all conditions, and counts where all are valid.
pub fn counted(alloc: Global, posed: &Posed) -> Result<Ended, Memory>
    requires ready { IsReady posed.now }
    ensures { IfOk result (λ e. ended_view e ≡ counted (posed_view posed.now)) }
{
    let components = components(alloc, &posed.source.program)?;
    let mut nodes = 0u64;
    let mut place = 0;
    while place < posed.conditions.len() {
        match next_valid(alloc, &components, posed, place)? {
            Stage::On(verdicts) => {
                place += verdicts.len();
                nodes += nodes_of(&verdicts);
            }
            Stage::Over(ended) => return Ok(ended),
        }
    }
    goals_counted(alloc, posed, nodes)
}

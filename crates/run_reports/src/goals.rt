//! What a goal comes to on a run. A response on a run that ends before the bound's rounds are over holds, but nothing was tried.

ghost use Rattle.std.specs.Prelude.{◌≡◌, IfOk};
ghost use Rattle.std.specs.String.{string_bytes};
ghost use Rattle.run_judging.specs.declared.judged.Judged.TheVariants.{Holds};
ghost use Rattle.run_reports.specs.Telling.{Says};

use formula_words::{Vocabulary, sum};
use proof_reports::GoalReport;
use run_judging::Judged;
use spl_semantics::is_true_at;
use st_form::{Form, Lin};
use st_memory::Memory;
use st_program::State;
use std::alloc::Global;
use temporal_goals::{Goal, Step};
use trace_player::{Played, Watched};

fn kind(goal: &Goal) -> &'static str {
    match goal {
        Goal::Invariant(_) => "invariant",
        Goal::Waiting(_, _) => "waiting",
        Goal::Response(_, _, _) => "response",
    }
}

/// Whether a formula holds in a state with control at these locations; a number that is too large tells nothing.
fn holds(form: &Form, state: &State, front: &[u32]) -> bool {
    is_true_at(form, &state.store, front).unwrap_or(false)
}

/// How a response holds on a run.
#[derive(Clone, Copy, Debug, PartialEq, Eq)]
enum Trial {
    /// Each wait that begins is over within the run.
    Tried,
    /// The last one goes on beyond the run.
    Untried,
    /// No wait begins.
    Idle,
}

/// How a response that holds does so: the run is walked from its end.
fn how_tried(states: &[State], fronts: &[Vec<u32>], premise: &Form, target: &Form) -> Trial {
    let mut reached = false;
    let mut trial = Trial::Idle;
    for (state, front) in states.iter().rev().zip(fronts.iter().rev()) {
        if holds(target, state, front) {
            reached = true;
        }
        if holds(premise, state, front) {
            trial = match (reached, trial) {
                (false, _) => Trial::Untried,
                (true, Trial::Untried) => Trial::Untried,
                (true, Trial::Tried | Trial::Idle) => Trial::Tried,
            };
        }
    }
    trial
}

/// The word for a verdict, the position that it speaks of, and the bound where it matters.
#[derive(Clone, Copy)]
struct Outcome<'a> {
    word: &'static str,
    at: Option<u64>,
    bound: Option<&'a Lin>,
}

fn told<'a>(word: &'static str, at: Option<u64>, bound: Option<&'a Lin>) -> Outcome<'a>
    ensures word { result.word.now ≡ word.now }
    ensures at { result.at ≡ at }
{
    Outcome { word, at, bound }
}

fn held<'a>(played: &Played, watched: &Watched, goal: &'a Goal) -> Outcome<'a>
    ensures { Says Holds result.word.now result.at }
{
    let Goal::Response(premise, target, bound) = goal else {
        return told("holds", None, None);
    };
    match how_tried(&played.states, &watched.fronts, premise, target) {
        Trial::Tried => told("holds", None, None),
        Trial::Untried => told("untried", None, Some(bound)),
        Trial::Idle => told("untried", None, None),
    }
}

fn verdict<'a>(played: &Played, watched: &Watched, goal: &'a Goal, judged: Judged) -> Outcome<'a>
    ensures { Says judged result.word.now result.at }
{
    match judged {
        Judged::Holds => held(played, watched, goal),
        Judged::Fails(at) => told("fails", Some(u64::from(at)), None),
        Judged::Unclear(at) => told("unclear", Some(u64::from(at)), None),
    }
}

/// What a step's goal comes to on a run, where this was judged of it.
pub(crate) fn goal_report(
    alloc: Global,
    words: &Vocabulary,
    played: &Played,
    watched: &Watched,
    step: &Step,
    judged: Judged,
    line: u64,
) -> Result<GoalReport, Memory>
    ensures { IfOk result (λ r. Says judged (string_bytes r.verdict) r.at) }
{
    let outcome = verdict(played, watched, &step.goal, judged);
    Ok(GoalReport {
        name: step.name.clone()?,
        kind: String::from_str(alloc, kind(&step.goal))?,
        verdict: String::from_str(alloc, outcome.word)?,
        at: outcome.at,
        bound: match outcome.bound {
            Some(bound) => Some(sum(alloc, words, bound)?),
            None => None,
        },
        line,
    })
}

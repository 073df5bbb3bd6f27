//! Responses: a chain is found, and then the least proof that it is one.

use crate::candidates::Candidate;
use crate::chain_rules::rule_text;
use crate::claims::Claim;
use crate::naming::Naming;
use crate::proving::{Proof, Task, Tried, begun, finished};
use crate::subject::Subject;
use clause_texts::{ClauseFault, ClauseWriter};
use control_cubes::{CubeFault, State};
use find_requests::Leading;
use invariant_search::Search;
use response_search::{Chain, Setting, Sought, chain_for, learn, learn_more, short_chain_for};
use st_form::{Form, Lin};
use st_memory::Memory;
use std::alloc::Global;

/// What came of a response.
#[derive(Drop)]
pub(crate) enum Responded {
    /// Its chain as a rule, with the bound in front, and the proof that it is one.
    Chained(Vec<u8>, Proof),
    /// No chain was found; with a state in which nothing helps, as a formula, where one was shown.
    Unfound(Option<Vec<u8>>),
}

/// What came of a response, and how many queries it took.
#[derive(Drop)]
pub(crate) struct Response {
    pub(crate) responded: Responded,
    pub(crate) queries: u64,
}

/// Whether a chain takes no more rounds than is allowed.
fn is_allowed(
    alloc: Global,
    search: &mut Search<'_>,
    chain: &Chain,
    most: Option<&Lin>,
) -> Result<bool, CubeFault> {
    match most {
        Some(most) => chain.is_within(alloc, search, most),
        None => Ok(true),
    }
}

/// The formulas whose comparisons a chain may take: those of the response, and the known claims.
fn spoken_of(alloc: Global, task: Task<'_>, leading: &Leading) -> Result<Vec<Form>, Memory> {
    let mut out = Vec::new(alloc);
    out.push(leading.start.copy(alloc)?)?;
    out.push(leading.goal.copy(alloc)?)?;
    for step in task.known {
        out.push(step.claim.copy(alloc)?)?;
    }
    Ok(out)
}

/// A state as a formula, where it can be said.
fn state_text(
    alloc: Global,
    subject: &Subject,
    search: &Search<'_>,
    writer: &ClauseWriter<'_>,
    state: &State,
) -> Result<Option<Vec<u8>>, Memory> {
    let variables = subject.program.variables.as_slice();
    match writer.state(alloc, search.layout(), variables, state) {
        Ok(phrase) => Ok(Some(phrase.text)),
        Err(ClauseFault::Unsaid) => Ok(None),
        Err(ClauseFault::Memory) => Err(Memory),
    }
}

/// That no chain was found.
fn unfound(
    alloc: Global,
    subject: &Subject,
    search: &Search<'_>,
    writer: &ClauseWriter<'_>,
    left: Option<State>,
) -> Result<Response, Memory> {
    let left = match left {
        Some(state) => state_text(alloc, subject, search, writer, &state)?,
        None => None,
    };
    Ok(Response {
        responded: Responded::Unfound(left),
        queries: search.counts().queries,
    })
}

/// What came of a response whose chain is this rule, by what came of the proof that it is one.
fn outcome_of(rule: Vec<u8>, tried: Tried) -> Responded {
    match tried {
        Tried::Proved(proof) => Responded::Chained(rule, proof),
        Tried::Refuted(_goal, _run) => Responded::Unfound(None),
        Tried::Unknown(_goal, _why, _left) => Responded::Unfound(None),
    }
}

/// What the search finds for a response: a short chain behind few lemmas, or else one behind all that it learns, which takes many questions.
fn sought(
    alloc: Global,
    subject: &Subject,
    search: &mut Search<'_>,
    writer: &ClauseWriter<'_>,
    leading: &Leading,
) -> Result<Sought, CubeFault> {
    let variables = subject.program.variables.as_slice();
    let setting = Setting {
        system: &subject.system,
        components: &subject.components,
        writer,
    };
    let (start, goal) = (&leading.start, &leading.goal);
    learn(alloc, search, variables)?;
    if let Some(chain) = short_chain_for(alloc, search, setting, variables, start, goal)? {
        return Ok(Sought::Chain(chain));
    }
    learn_more(alloc, search, variables)?;
    chain_for(alloc, search, setting, variables, start, goal)
}

/// The least proof that a chain is one.
fn proved(
    alloc: Global,
    task: Task<'_>,
    search: &mut Search<'_>,
    writer: &ClauseWriter<'_>,
    given: Vec<Candidate>,
    chain: Chain,
    naming: &mut Naming,
) -> Result<Response, CubeFault> {
    let rule = rule_text(alloc, task.subject, &chain)?;
    let claims = vec![in alloc; Claim::Response(chain)]?;
    let effort = finished(alloc, task, search, writer, given, &claims, naming)?;
    Ok(Response {
        queries: effort.queries,
        responded: outcome_of(rule, effort.tried),
    })
}

/// Tries to find a chain for a response.
pub(crate) fn respond(
    alloc: Global,
    task: Task<'_>,
    leading: &Leading,
    naming: &mut Naming,
) -> Result<Response, CubeFault> {
    let subject = task.subject;
    let spoken = spoken_of(alloc, task, leading)?;
    let (mut search, given) = begun(alloc, task, &spoken)?;
    let writer = subject.writer(alloc, &search)?;
    match sought(alloc, subject, &mut search, &writer, leading)? {
        Sought::Chain(chain) => {
            if is_allowed(alloc, &mut search, &chain, leading.most.as_ref())? {
                proved(alloc, task, &mut search, &writer, given, chain, naming)
            } else {
                Ok(unfound(alloc, subject, &search, &writer, None)?)
            }
        }
        Sought::Left(left) => Ok(unfound(alloc, subject, &search, &writer, left)?),
    }
}

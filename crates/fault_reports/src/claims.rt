//! Claims that say nothing: an invariance whose formula every state satisfies, a waiting-for or a response whose last formula holds
//! wherever it begins. Whether a formula holds in every state is asked of the search, without a lemma: it is made the claim of an
//! invariance `by true`, the first condition of which says that it follows from `true`. Most claims fall at a glance, and aren't asked about.

ghost use Rattle.posed_conditions.specs.Translated.{IsTranslated};
ghost use Rattle.posed_conditions.specs.Posed.{IsPosed};

use crate::asking::{open_of, posed};
use crate::glancing::falls_plainly;
use crate::labels::{Label, plain_labels};
use crate::source::Source;
use posed_conditions::PosedProof;
use source_places::{Span, StepPlaces, tokens_of};
use st_form::Premise;
use st_memory::Memory;
use st_tokens::Token;
use std::alloc::Global;

/// A claim that says nothing, and why.
#[derive(Clone, Copy)]
pub(crate) struct Emptiness {
    pub span: Span,
    pub sentence: &'static str,
}

/// The formula behind which nothing is claimed, if it holds where the step begins.
fn target(source: &Source, step: &StepPlaces) -> Option<Span> {
    match source.word_at(step.whole.from) {
        "response" => step.claim.get(1).copied(),
        _ => step.claim.last().copied(),
    }
}

fn sentence_of(claim: &str) -> &'static str {
    match claim {
        "response" => "this holds wherever the response begins, so nothing is claimed",
        "waiting" => "this holds wherever the waiting-for begins, so nothing is claimed",
        _ => "every state satisfies this claim, so it says nothing of the program",
    }
}

/// Writes a formula of a text in parentheses.
fn push_formula(out: &mut Vec<u8>, source: &Source, span: Span) -> Result<(), Memory> {
    out.extend_from_slice(b"(".as_slice())?;
    out.extend_from_slice(source.stretch(span))?;
    out.extend_from_slice(b")".as_slice())?;
    Ok(())
}

/// Writes the invariance that asks whether a step's claim holds in every state.
fn push_question(out: &mut Vec<u8>, source: &Source, step: &StepPlaces) -> Result<(), Memory> {
    let (Some(first), Some(target)) = (step.claim.first(), target(source, step)) else {
        return Ok(());
    };
    out.extend_from_slice(b"invariant ".as_slice())?;
    out.extend_from_slice(source.stretch(step.name))?;
    out.extend_from_slice(b": ".as_slice())?;
    if source.word_at(step.whole.from) != "invariant" {
        push_formula(out, source, *first)?;
        out.extend_from_slice(b" -> ".as_slice())?;
    }
    push_formula(out, source, target)?;
    out.extend_from_slice(b" by true;\n".as_slice())?;
    Ok(())
}

/// The tokens of the formula that a question claims: those between its name and `by true`.
fn asked_of<'a, 'b>(question: &'b [Token<'a>]) -> &'b [Token<'a>] {
    match question {
        [_, _, _, formula @ .., _, _, _] => formula,
        _ => question,
    }
}

/// Whether it is seen at a glance that a question is denied.
fn is_denied_plainly(
    alloc: Global,
    question: &[u8],
    labels: &Option<Vec<Label>>,
) -> Result<bool, Memory> {
    match labels {
        Some(labels) => falls_plainly(alloc, asked_of(&tokens_of(alloc, question)?), labels),
        None => Ok(false),
    }
}

/// The invariances that ask it of the steps of which it isn't seen at a glance, and the numbers of these.
fn questions(
    alloc: Global,
    program: &Source,
    source: &Source,
    steps: &[StepPlaces],
) -> Result<(Vec<u8>, Vec<usize>), Memory> {
    let labels = plain_labels(alloc, program)?;
    let mut text = Vec::new(alloc);
    let mut numbers = Vec::new(alloc);
    for (number, step) in steps.iter().enumerate() {
        let mut question = Vec::new(alloc);
        push_question(&mut question, source, step)?;
        if !is_denied_plainly(alloc, &question, &labels)? {
            text.append(&mut question)?;
            numbers.push(number)?;
        }
    }
    Ok((text, numbers))
}

/// The numbers of the questions that the search doesn't affirm.
fn denied(alloc: Global, asked: &PosedProof) -> Result<Vec<usize>, Memory>
    requires translated { IsTranslated asked.now.source }
    requires posed { IsPosed asked.now.source asked.now.proof }
{
    let mut out = Vec::new(alloc);
    for undecided in &open_of(alloc, asked)? {
        if let Some(condition) = asked.proof.conditions.get(undecided.place) {
            if condition.name.premise == Premise::Implies {
                out.push(condition.name.step as usize)?;
            }
        }
    }
    Ok(out)
}

/// The claims of a proof that say nothing, in their order.
pub(crate) fn empty_claims(
    alloc: Global,
    program: &Source,
    source: &Source,
    steps: &[StepPlaces],
) -> Result<Vec<Emptiness>, Memory> {
    let mut out = Vec::new(alloc);
    let (questions, numbers) = questions(alloc, program, source, steps)?;
    if numbers.is_empty() {
        return Ok(out);
    }
    let Some(asked) = posed(alloc, program.file.text, &questions)? else {
        return Ok(out);
    };
    let denied = denied(alloc, &asked)?;
    for (place, number) in numbers.iter().enumerate() {
        let Some(step) = steps.get(*number) else {
            continue;
        };
        if let (false, Some(span)) = (denied.contains(&place), target(source, step)) {
            out.push(Emptiness {
                span,
                sentence: sentence_of(source.word_at(step.whole.from)),
            })?;
        }
    }
    Ok(out)
}

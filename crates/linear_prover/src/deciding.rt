//! The search for a certificate of a condition.

ghost use Rattle.std.specs.Prelude.{◌≡◌, ◌<◌, ◌^◌, IfOk, length};
ghost use Rattle.st_form.specs.Formula.{Formula};
ghost use Rattle.st_form.specs.Shared.{given_of, shown_of};
ghost use Rattle.farkas_check.specs.Problem.{Setting};
ghost use Rattle.farkas_check.specs.PlainProblem.{setting};
ghost use Rattle.farkas_check.specs.Limits.{IsNarrow};
ghost use Rattle.search_laws.specs.Forms.{AllForms};
ghost use Rattle.search_laws.specs.Moves.{decided, verdict_of};
ghost use Rattle.search_verdicts.specs.Plain.{plain_verdict};
ghost use Rattle.linear_prover.specs.Plain.{plain_outcome};
ghost use Rattle.search_laws.specs.Searchable.{IsBelow};
ghost use Rattle.linear_prover.specs.Verdicts.{IsRight, IsUnlessValid};
ghost use Rattle.shared_search.specs.Books.{Knows};

use crate::entries::look_at_condition;
use crate::failure::Failure;
use crate::problems::node_of;
use crate::walk::{Outcome, walk};
use control_states::Components;
use farkas_check::problems::first_problem;
use search_verdicts::Verdict;
use shared_search::{Book, certificate, find};
use st_form::{Condition, Variable};
use st_memory::Memory;
use std::alloc::Global;

const MOST_LEVELS: u32 = 400;

/// At most so many lists of conjuncts are searched before the problems are.
const MOST_LISTS: u32 = 100000;

/// What the walk says; its path is kept from the last step to the first.
fn verdict_of(outcome: Outcome) -> Verdict
    ensures { plain_verdict result ≡ verdict_of (plain_outcome outcome) }
{
    match outcome {
        Outcome::Found(certificate, _) => Verdict::Valid(certificate),
        Outcome::Stopped(mut path, failure) => {
            path.reverse();
            match failure {
                Failure::Open(state) => Verdict::Open(path, state),
                Failure::Wide(stage) => Verdict::Wide(path, stage),
            }
        }
    }
}

/// Searches for a certificate of a condition over problems, which tells the path to one that is left open.
fn over_problems(
    alloc: Global,
    components: &Components,
    variables: &[Variable],
    condition: &Condition,
) -> Result<Verdict, Memory>
    requires few { length variables.now < 2 ^ 32 }
    requires given { IsNarrow (given_of condition.now) }
    requires shown { IsNarrow (shown_of condition.now) }
    requires given_below { AllForms (IsBelow (length variables.now)) (given_of condition.now) }
    requires shown_below { AllForms (IsBelow (length variables.now)) (shown_of condition.now) }
    ensures exact { IfOk result (λ v. plain_verdict v
        ≡ decided (setting components.now variables.now) (given_of condition.now) (shown_of condition.now)) }
    ensures right { IfOk result (λ v. IsRight (setting components.now variables.now) (given_of condition.now) (shown_of condition.now) v) }
{
    look_at_condition(condition);
    let problem = first_problem(alloc, components, variables, condition)?;
    let node = node_of(alloc, &problem)?;
    let outcome = walk(alloc, &*components, variables, &node, MOST_LEVELS, 0)?;
    Ok(verdict_of(outcome))
}

/// A verdict, unless it is that the condition is valid.
fn left_of(verdict: Verdict) -> Option<Verdict>
    ensures { (k : Setting) (given shown : Formula) → plain_verdict verdict ≡ decided k given shown → IsRight k given shown verdict
        → IsUnlessValid k given shown result }
{
    match verdict {
        Verdict::Valid(_) => None,
        Verdict::Open(path, state) => Some(Verdict::Open(path, state)),
        Verdict::Wide(path, stage) => Some(Verdict::Wide(path, stage)),
    }
}

/// Searches for a certificate of a condition: first over lists of conjuncts, as far as the book goes, and where that gives
/// none, over problems. There are fewer than 2^32 variables, the condition's variables are among them, and its numbers are
/// below 2^69 in size, as the check of certificates asks.
pub fn decide(
    alloc: Global,
    book: &mut Book,
    components: &Components,
    variables: &[Variable],
    condition: &Condition,
) -> Result<Verdict, Memory>
    requires few { length variables.now < 2 ^ 32 }
    requires given { IsNarrow (given_of condition.now) }
    requires shown { IsNarrow (shown_of condition.now) }
    requires given_below { AllForms (IsBelow (length variables.now)) (given_of condition.now) }
    requires shown_below { AllForms (IsBelow (length variables.now)) (shown_of condition.now) }
    requires knows { Knows (setting components.now variables.now) book.old }
    ensures knows { Knows (setting components.now variables.now) book.new }
    ensures exact { IfOk result (λ v. plain_verdict v
        ≡ decided (setting components.now variables.now) (given_of condition.now) (shown_of condition.now)) }
    ensures right { IfOk result (λ v. IsRight (setting components.now variables.now) (given_of condition.now) (shown_of condition.now) v) }
{
    look_at_condition(condition);
    if let Some(number) = find(alloc, book, components, variables, condition, MOST_LISTS)? {
        return Ok(Verdict::Valid(certificate(alloc, book, number)?));
    }
    over_problems(alloc, components, variables, condition)
}

/// The verdict on a condition, unless it is that the condition is valid. No certificate is made where lists of conjuncts tell
/// that it is.
pub fn unless_valid(
    alloc: Global,
    book: &mut Book,
    components: &Components,
    variables: &[Variable],
    condition: &Condition,
) -> Result<Option<Verdict>, Memory>
    requires few { length variables.now < 2 ^ 32 }
    requires given { IsNarrow (given_of condition.now) }
    requires shown { IsNarrow (shown_of condition.now) }
    requires given_below { AllForms (IsBelow (length variables.now)) (given_of condition.now) }
    requires shown_below { AllForms (IsBelow (length variables.now)) (shown_of condition.now) }
    requires knows { Knows (setting components.now variables.now) book.old }
    ensures knows { Knows (setting components.now variables.now) book.new }
    ensures exact { IfOk result (λ o. IsUnlessValid (setting components.now variables.now) (given_of condition.now) (shown_of condition.now) o) }
{
    if let Some(_) = find(alloc, book, components, variables, condition, MOST_LISTS)? {
        return Ok(None);
    }
    Ok(left_of(over_problems(alloc, components, variables, condition)?))
}

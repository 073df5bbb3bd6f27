//! Problems: decisions of components and boolean variables, and conjuncts under them.
//!
//! The problem of a condition has the conjuncts of what is given and of the opposite of what is shown. The condition
//! holds where no state meets them all.

ghost use Rattle.std.specs.Prelude.{◌≡◌, ◌<◌, IfOk, replicate, None};
ghost use Rattle.st_form.specs.Plain.{plain, plain_list, plain_conjuncts};
ghost use Rattle.st_form.specs.Formula.{none, every, more, negation};
ghost use Rattle.st_form.specs.Shared.{given_of, shown_of};
ghost use Rattle.st_form.specs.Simple.{parts};
ghost use Rattle.farkas_check.specs.Problem.{posed, first_problem, with_conjuncts};
ghost use Rattle.farkas_check.specs.PlainProblem.{plain_posed, setting};
ghost use Rattle.farkas_check.specs.Limits.{IsNarrow, AreFit, AreSettled};

use control_states::{Alternative, Components};
use st_form::{Condition, Form, Variable, joined_conjuncts, simple_conjuncts};
use st_memory::Memory;
use std::alloc::Global;

/// A problem: what is decided of components and of boolean variables, and the conjuncts, or None where it is false.
#[derive(Drop)]
pub struct Posed {
    pub cases: Vec<Option<Alternative>>,
    pub truths: Vec<Option<bool>>,
    pub conjuncts: Option<Vec<Form>>,
}

/// The problem of these conjuncts under these decisions.
pub fn pose(
    alloc: Global,
    components: &Components,
    cases: Vec<Option<Alternative>>,
    truths: Vec<Option<bool>>,
    fs: &[Form],
) -> Result<Posed, Memory>
    requires { AreSettled (plain_list fs.now) }
    ensures exact { IfOk result (λ p. plain_posed p ≡ posed components.now cases.items truths.items (plain_list fs.now)) }
    ensures fit { IfOk result (λ p. AreFit (plain_posed p).conjuncts) }
{
    let places = components.places(alloc, cases.as_slice())?;
    let conjuncts = simple_conjuncts(alloc, fs, truths.as_slice(), places.as_slice())?;
    Ok(Posed {
        cases,
        truths,
        conjuncts,
    })
}

/// The same decisions with other conjuncts.
pub fn with_conjuncts(
    alloc: Global,
    problem: &Posed,
    conjuncts: Option<Vec<Form>>,
) -> Result<Posed, Memory>
    ensures { IfOk result (λ p. plain_posed p ≡ with_conjuncts (plain_posed problem.now) (plain_conjuncts conjuncts)) }
{
    let cases = Vec::from_slice(alloc, problem.cases.as_slice())?;
    let truths = Vec::from_slice(alloc, problem.truths.as_slice())?;
    Ok(Posed {
        cases,
        truths,
        conjuncts,
    })
}

/// A table of components in which nothing is decided.
pub fn undecided_cases(alloc: Global, count: usize) -> Result<Vec<Option<Alternative>>, Memory>
    ensures { IfOk result (λ v. v.items ≡ replicate count None) }
{
    let mut out = Vec::new(alloc);
    for i in 0..count {
        out.push(None)?;
    }
    Ok(out)
}

/// A table of variables in which nothing is decided.
pub fn undecided_truths(alloc: Global, count: usize) -> Result<Vec<Option<bool>>, Memory>
    ensures { IfOk result (λ v. v.items ≡ replicate count None) }
{
    let mut out = Vec::new(alloc);
    for i in 0..count {
        out.push(None)?;
    }
    Ok(out)
}

/// The conjuncts of what is given and of the opposite of what is shown.
#[tactic(auto, using(st_form::proofs::Nodes::nodes))]
fn opposed(alloc: Global, condition: &Condition) -> Result<Form, Memory>
    ensures { IfOk result (λ f. plain f ≡ every (more (given_of condition.now) (more (negation (shown_of condition.now)) none))) }
{
    let given = condition.given(alloc)?;
    let opposite = Form::Not(Box::new(alloc, condition.shown(alloc)?)?);
    Ok(Form::And(vec![in alloc; given, opposite]?))
}

/// The problem of a condition.
pub fn first_problem(
    alloc: Global,
    components: &Components,
    variables: &[Variable],
    condition: &Condition,
) -> Result<Posed, Memory>
    requires given { IsNarrow (given_of condition.now) }
    requires shown { IsNarrow (shown_of condition.now) }
    ensures { IfOk result (λ p. plain_posed p ≡ first_problem (setting components.now variables.now) (given_of condition.now) (shown_of condition.now)) }
{
    let simple = opposed(alloc, condition)?.normal(alloc)?;
    let nothing: Vec<Form> = Vec::new(alloc);
    let conjuncts = joined_conjuncts(alloc, nothing.as_slice(), simple)?;
    let cases = undecided_cases(alloc, components.parts().len())?;
    let truths = undecided_truths(alloc, variables.len())?;
    Ok(Posed {
        cases,
        truths,
        conjuncts,
    })
}

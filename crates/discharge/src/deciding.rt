//! The verdicts on conditions, in order, for those who want the certificates.

ghost use Rattle.std.specs.Prelude.{◌≡◌, ◌<◌, ◌^◌, IfOk, length};
ghost use Rattle.farkas_check.specs.PlainProblem.{setting};
ghost use Rattle.shared_search.specs.Books.{Knows};
ghost use Rattle.search_laws.specs.Searchable.{AreSearchable};
ghost use Rattle.discharge.specs.Verdicts.{AreAnswers};

use control_states::Components;
use linear_prover::{Book, Verdict, decide};
use st_form::{Condition, Variable};
use st_memory::Memory;
use std::alloc::Global;

/// The verdicts on conditions, in their order, by a book that may know other conditions of the program.
pub fn decide_each(
    alloc: Global,
    book: &mut Book,
    components: &Components,
    variables: &[Variable],
    conditions: &[Condition],
) -> Result<Vec<Verdict>, Memory>
    requires few { length variables.now < 2 ^ 32 }
    requires searchable { AreSearchable (length variables.now) conditions.now }
    requires knows { Knows (setting components.now variables.now) book.old }
    ensures knows { Knows (setting components.now variables.now) book.new }
    ensures answers { IfOk result (λ v. AreAnswers (setting components.now variables.now) conditions.now v.items) }
{
    let mut verdicts = Vec::with_capacity(alloc, conditions.len())?;
    for condition in conditions {
        verdicts.push(decide(alloc, book, components, variables, condition)?)?;
    }
    Ok(verdicts)
}

/// The verdicts on all conditions, in their order.
pub fn decide_all(
    alloc: Global,
    components: &Components,
    variables: &[Variable],
    conditions: &[Condition],
) -> Result<Vec<Verdict>, Memory>
    requires few { length variables.now < 2 ^ 32 }
    requires searchable { AreSearchable (length variables.now) conditions.now }
    ensures { IfOk result (λ v. AreAnswers (setting components.now variables.now) conditions.now v.items) }
{
    let mut book = Book::new(alloc, components, variables)?;
    decide_each(alloc, &mut book, components, variables, conditions)
}

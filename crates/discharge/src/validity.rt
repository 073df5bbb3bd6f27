//! Whether a certificate is valid. Where it is the one that the search finds, nothing else is to be checked; else it is checked over
//! the book's lists of conjuncts.

ghost use Rattle.std.specs.Prelude.{◌↔◌, IfOk, IfSome, IsTrue};
ghost use Rattle.st_form.specs.Shared.{given_of, shown_of};
ghost use Rattle.st_certificate.specs.Plain.{plain as tree_of};
ghost use Rattle.farkas_check.specs.PlainProblem.{setting};
ghost use Rattle.farkas_check.specs.Limits.{IsNarrow, IsLimited};
ghost use Rattle.farkas_check.specs.Valid.{IsCertificate};
ghost use Rattle.shared_search.specs.Books.{Knows};

use control_states::Components;
use farkas_check::check;
use linear_prover::{Book, is_found};
use st_certificate::Certificate;
use st_form::{Condition, Variable};
use st_memory::Memory;
use std::alloc::Global;

/// Whether a certificate is valid for a condition, checked over the book's lists. With `None` nothing is said.
fn is_valid_by_lists(
    alloc: Global,
    book: &mut Book,
    components: &Components,
    variables: &[Variable],
    condition: &Condition,
    certificate: &Certificate,
) -> Result<Option<bool>, Memory>
    requires limited { IsLimited (tree_of certificate.now) }
    requires given { IsNarrow (given_of condition.now) }
    requires shown { IsNarrow (shown_of condition.now) }
    requires knows { Knows (setting components.now variables.now) book.old }
    ensures knows { Knows (setting components.now variables.now) book.new }
    ensures exact { IfOk result (λ o. IfSome o (λ yes. IsTrue yes
        ↔ IsCertificate (setting components.now variables.now) (given_of condition.now) (shown_of condition.now) (tree_of certificate.now))) }
{
    shared_check::check(
        alloc,
        &mut book.memo.table,
        &book.decisions,
        components,
        variables,
        condition,
        certificate,
    )
}

/// Whether a certificate is valid for a condition.
pub fn is_valid(
    alloc: Global,
    book: &mut Book,
    components: &Components,
    variables: &[Variable],
    condition: &Condition,
    certificate: &Certificate,
) -> Result<bool, Memory>
    requires limited { IsLimited (tree_of certificate.now) }
    requires given { IsNarrow (given_of condition.now) }
    requires shown { IsNarrow (shown_of condition.now) }
    requires knows { Knows (setting components.now variables.now) book.old }
    ensures knows { Knows (setting components.now variables.now) book.new }
    ensures exact { IfOk result (λ yes. IsTrue yes
        ↔ IsCertificate (setting components.now variables.now) (given_of condition.now) (shown_of condition.now) (tree_of certificate.now)) }
{
    if is_found(alloc, book, components, variables, condition, certificate)? {
        return Ok(true);
    }
    if let Some(yes) = is_valid_by_lists(
        alloc,
        book,
        components,
        variables,
        condition,
        certificate,
    )? {
        return Ok(yes);
    }
    check(alloc, components, variables, condition, certificate)
}

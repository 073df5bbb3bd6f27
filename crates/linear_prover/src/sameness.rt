//! Whether a certificate is the one that the search finds. Where it is, it is valid, so the check of it is spared.

ghost use Rattle.std.specs.Prelude.{◌≡◌, IfOk, true};
ghost use Rattle.st_form.specs.Shared.{given_of, shown_of};
ghost use Rattle.st_certificate.specs.Plain.{plain as tree_of};
ghost use Rattle.farkas_check.specs.PlainProblem.{setting};
ghost use Rattle.farkas_check.specs.Limits.{IsNarrow};
ghost use Rattle.farkas_check.specs.Valid.{IsCertificate};
ghost use Rattle.shared_search.specs.Books.{Knows};

use crate::entries::look_at_condition;
use crate::guards::is_condition_below;
use control_states::Components;
use shared_search::{Book, find, is_same};
use st_certificate::Certificate;
use st_form::{Condition, Variable};
use st_memory::Memory;
use std::alloc::Global;

/// The number of nodes of a certificate, as far as it fits.
#[cycle(count)]
fn node_count(tree: &Certificate) -> u32 {
    match tree {
        Certificate::Absurd => 1,
        Certificate::Farkas(_) => 1,
        Certificate::Linear(_) => 1,
        Certificate::Case(_, parts) => count_all(parts),
        Certificate::Bool(_, parts) => count_all(parts),
        Certificate::Split(_, parts) => count_all(parts),
        Certificate::Cut(_, parts) => count_all(parts),
    }
}

/// The number of nodes of a branch with these parts.
#[cycle(count)]
fn count_all(parts: &[Certificate]) -> u32 {
    let mut count: u32 = 1;
    for part in parts {
        count = count.saturating_add(node_count(part));
    }
    count
}

/// Whether a certificate is the one that the search over lists finds for a condition, in no more lists than it has nodes.
/// Such a certificate is valid. Where the answer is no, nothing is said.
pub fn is_found(
    alloc: Global,
    book: &mut Book,
    components: &Components,
    variables: &[Variable],
    condition: &Condition,
    certificate: &Certificate,
) -> Result<bool, Memory>
    requires given { IsNarrow (given_of condition.now) }
    requires shown { IsNarrow (shown_of condition.now) }
    requires knows { Knows (setting components.now variables.now) book.old }
    ensures knows { Knows (setting components.now variables.now) book.new }
    ensures valid { IfOk result (λ b. b ≡ true
        → IsCertificate (setting components.now variables.now) (given_of condition.now) (shown_of condition.now) (tree_of certificate.now)) }
{
    look_at_condition(condition);
    if !is_condition_below(variables.len(), condition) {
        return Ok(false);
    }
    match find(
        alloc,
        book,
        components,
        variables,
        condition,
        node_count(certificate),
    )? {
        None => Ok(false),
        Some(number) => Ok(is_same(book, number, certificate)),
    }
}

//! Finding the certificate of a condition in a book.

ghost use Rattle.std.specs.Prelude.{◌≡◌, ◌<◌, ◌^◌, IfOk, IfSome, length, true};
ghost use Rattle.st_form.specs.Shared.{given_of, shown_of};
ghost use Rattle.st_certificate.specs.Plain.{plain as tree_of};
ghost use Rattle.farkas_check.specs.PlainProblem.{setting};
ghost use Rattle.farkas_check.specs.Limits.{IsNarrow};
ghost use Rattle.shared_search.specs.Books.{Knows, IsFound, IsTreeFound, IsThere, tree_in};

use crate::book::Book;
use crate::lists::Child;
use crate::walk::walk;
use control_states::Components;
use st_certificate::Certificate;
use st_form::{Condition, Variable};
use st_memory::Memory;
use std::alloc::Global;

const MOST_LEVELS: u32 = 400;

/// A book with more formulas, more parts of them, more contexts or more entries is long: a new one is quicker.
const LONG: usize = 20000;

const LONG_PARTS: usize = 2_000_000;

const LONG_CONTEXTS: usize = 10000;

const LONG_ENTRIES: usize = 200_000;

/// Whether a new book is quicker than this one.
fn is_long(book: &Book) -> bool {
    let memo = &book.memo;
    memo.table.size() > LONG
        || memo.table.part_count() > LONG_PARTS
        || memo.contexts.kept.len() > LONG_CONTEXTS
        || memo.found.others.kept.len() > LONG_ENTRIES
}

/// Begins a new book where this one is long.
fn renew(
    alloc: Global,
    book: &mut Book,
    components: &Components,
    variables: &[Variable],
) -> Result<(), Memory>
    requires { Knows (setting components.now variables.now) book.old }
    ensures { Knows (setting components.now variables.now) book.new }
{
    if is_long(book) {
        *book = Book::new(alloc, components, variables)?;
    }
    Ok(())
}

/// What is found in the book as it is, of any size.
fn find_in(
    alloc: Global,
    book: &mut Book,
    components: &Components,
    variables: &[Variable],
    condition: &Condition,
    most: u32,
) -> Result<Option<u32>, Memory>
    requires given { IsNarrow (given_of condition.now) }
    requires shown { IsNarrow (shown_of condition.now) }
    requires knows { Knows (setting components.now variables.now) book.old }
    ensures knows { Knows (setting components.now variables.now) book.new }
    ensures found { IfOk result (λ o. IfSome o (IsTreeFound (setting components.now variables.now) (given_of condition.now) (shown_of condition.now) book.new)) }
{
    book.memo.left = most;
    let list = book
        .memo
        .table
        .first_list(alloc, condition.given.as_slice(), &condition.shown)?;
    walk(
        alloc,
        &mut book.memo,
        &book.decisions,
        components,
        variables,
        Child { context: 0, list },
        MOST_LEVELS,
    )
}

/// The number of the tree that the search over lists finds for a condition, where at most so many lists are searched for it. It may have
/// any number of nodes; it is a valid certificate of the condition. With `None` nothing is said.
pub fn find_tree(
    alloc: Global,
    book: &mut Book,
    components: &Components,
    variables: &[Variable],
    condition: &Condition,
    most: u32,
) -> Result<Option<u32>, Memory>
    requires given { IsNarrow (given_of condition.now) }
    requires shown { IsNarrow (shown_of condition.now) }
    requires knows { Knows (setting components.now variables.now) book.old }
    ensures knows { Knows (setting components.now variables.now) book.new }
    ensures found { IfOk result (λ o. IfSome o (IsTreeFound (setting components.now variables.now) (given_of condition.now) (shown_of condition.now) book.new)) }
{
    renew(alloc, book, components, variables)?;
    find_in(alloc, book, components, variables, condition, most)
}

/// The number of the certificate that the search finds for a condition, where at most so many lists are searched for it.
/// With `None` nothing is said.
pub fn find(
    alloc: Global,
    book: &mut Book,
    components: &Components,
    variables: &[Variable],
    condition: &Condition,
    most: u32,
) -> Result<Option<u32>, Memory>
    requires given { IsNarrow (given_of condition.now) }
    requires shown { IsNarrow (shown_of condition.now) }
    requires knows { Knows (setting components.now variables.now) book.old }
    ensures knows { Knows (setting components.now variables.now) book.new }
    ensures found { IfOk result (λ o. IsFound (setting components.now variables.now) (given_of condition.now) (shown_of condition.now) book.new o) }
{
    match find_tree(alloc, book, components, variables, condition, most)? {
        None => Ok(None),
        Some(tree) => {
            if book.memo.trees.is_modest(tree) {
                Ok(Some(tree))
            } else {
                Ok(None)
            }
        }
    }
}

/// The certificate with a number.
pub fn certificate(alloc: Global, book: &Book, number: u32) -> Result<Certificate, Memory>
    requires { IsThere book.now number }
    ensures { IfOk result (λ c. tree_of c ≡ tree_in book.now number) }
{
    tree_table::certificate(alloc, &book.memo.trees, number)
}

/// Whether a certificate is the one with a number.
pub fn is_same(book: &Book, number: u32, certificate: &Certificate) -> bool
    requires { IsThere book.now number }
    ensures { result ≡ true → tree_in book.now number ≡ tree_of certificate.now }
{
    tree_table::is_same(certificate, &book.memo.trees, number)
}

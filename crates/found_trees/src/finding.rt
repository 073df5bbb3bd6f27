//! The search over lists, asked for trees of any size. A tree of a table counts its nodes as one tree does, with each part as often as it
//! stands there, so a certificate of seven processes has millions, where the table has some thousand.

ghost use Rattle.std.specs.Prelude.{◌≡◌, All, IfOk, length, true};
ghost use Rattle.st_form.specs.Shared.{plain_condition};
ghost use Rattle.farkas_check.specs.PlainProblem.{setting};
ghost use Rattle.search_laws.specs.Searchable.{AreSearchable, IsSearchable};
ghost use Rattle.shared_search.specs.Books.{Knows};
ghost use Rattle.found_trees.specs.Certified.{HasCertificate};

use control_states::Components;
use linear_prover::look_at_condition;
use shared_search::{Book, find_tree};
use sharing_laws::laws::found_trees_are_valid;
use st_form::{Condition, Variable};
use st_memory::Memory;
use std::alloc::Global;

/// At most so many lists are searched for a condition. Each is searched once for all conditions of a book, so it is a limit for what no
/// search closes, and not for what is large.
const MOST_LISTS: u32 = 1_000_000;

/// Whether the search over lists finds a tree of a condition, of whatever size. A yes means that the condition has a valid certificate; with
/// a no nothing is said.
pub fn has_tree(
    alloc: Global,
    book: &mut Book,
    components: &Components,
    variables: &[Variable],
    condition: &Condition,
) -> Result<bool, Memory>
    requires searchable { IsSearchable (length variables.now) condition.now }
    requires knows { Knows (setting components.now variables.now) book.old }
    ensures knows { Knows (setting components.now variables.now) book.new }
    ensures certified { IfOk result (λ b. b ≡ true → HasCertificate (setting components.now variables.now) (plain_condition condition.now)) }
{
    found_trees_are_valid();
    look_at_condition(condition);
    let found = find_tree(alloc, book, components, variables, condition, MOST_LISTS)?;
    Ok(found.is_some())
}

/// Whether the search over lists finds a tree of each condition. A yes means that each has a valid certificate; with a no nothing is said.
pub fn have_trees(
    alloc: Global,
    components: &Components,
    variables: &[Variable],
    conditions: &[Condition],
) -> Result<bool, Memory>
    requires { AreSearchable (length variables.now) conditions.now }
    ensures { IfOk result (λ b. b ≡ true → All (λ c. HasCertificate (setting components.now variables.now) (plain_condition c)) conditions.now) }
{
    let mut book = Book::new(alloc, components, variables)?;
    for place in 0..conditions.len() {
        let found = has_tree(alloc, &mut book, components, variables, &conditions[place])?;
        if !found {
            return Ok(false);
        }
    }
    Ok(true)
}

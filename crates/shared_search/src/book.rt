//! What is remembered from one search to the next, for the conditions of one program.

ghost use Rattle.std.specs.Prelude.{IfOk};
ghost use Rattle.farkas_check.specs.PlainProblem.{setting};
ghost use Rattle.shared_search.specs.Books.{Knows};

use crate::contexts::first_contexts;
use crate::decisions::{Decisions, all_decisions};
use crate::entries::no_entries;
use crate::memo::{Found, Memo};
use control_states::Components;
use form_table::Table;
use st_form::Variable;
use st_memory::Memory;
use std::alloc::Global;
use tree_table::TreeTable;

/// Lists of conjuncts, trees and contexts by number, which tree was found for a list in a context, and the decisions of the program.
#[derive(Drop)]
pub struct Book {
    pub memo: Memo,
    pub decisions: Decisions,
}

impl Book {
    /// A book in which nothing is found, for the conditions of a program.
    pub fn new(
        alloc: Global,
        components: &Components,
        variables: &[Variable],
    ) -> Result<Book, Memory>
        ensures { IfOk result (λ b. Knows (setting components.now variables.now) b) }
    {
        let mut table = Table::new(alloc)?;
        let decisions = all_decisions(alloc, &mut table, components, variables)?;
        Ok(Book {
            memo: Memo {
                table,
                trees: TreeTable::new(alloc)?,
                contexts: first_contexts(alloc, components)?,
                found: Found {
                    known: Vec::new(alloc),
                    others: no_entries(alloc),
                },
                left: 0,
            },
            decisions,
        })
    }
}

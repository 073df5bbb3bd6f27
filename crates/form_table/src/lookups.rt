//! What stands in a table.

ghost use Rattle.std.specs.Prelude.{◌≡◌, IfOk, length, map};
ghost use Rattle.farkas_leaf.specs.Lent.{lent_line};
ghost use Rattle.farkas_check.specs.Problem.{lines_of, rows_of};
ghost use Rattle.search_laws.specs.Moves.{first_place_of, first_truth_of};
ghost use Rattle.form_table.specs.Table.{listed};
ghost use Rattle.form_table.specs.Contents.{formulas_of};
ghost use Rattle.form_table.specs.Lists.{IsList, conjuncts_of};

use crate::conjuncts::{conjuncts, lines_of};
use crate::firsts::{first_place_of, first_truth_of};
use crate::rows::rows_of;
use crate::tables::Table;
use farkas_leaf::LentLine;
use st_form::Lin;
use st_memory::Memory;
use std::alloc::Global;

/// A table with more formulas, or more parts of formulas, is full.
const MOST_FORMULAS: usize = 1 << 20;

const MOST_PARTS: usize = 1 << 22;

impl Table {
    /// How many formulas there are.
    pub fn size(&self) -> usize
        ensures { result ≡ length (formulas_of self.now) }
    {
        self.pool.store.size()
    }

    /// How many parts of conjunctions and disjunctions are kept.
    pub fn part_count(&self) -> usize {
        self.pool.store.part_count()
    }

    /// Whether no more formulas, or parts of formulas, should be kept.
    pub fn is_full(&self) -> bool {
        self.size() > MOST_FORMULAS || self.part_count() > MOST_PARTS
    }

    /// The conjuncts of a list.
    pub fn conjuncts(&self, list: u32) -> &[u32]
        requires { IsList (formulas_of self.now) list }
        ensures { listed (formulas_of self.now) result.now ≡ conjuncts_of (formulas_of self.now) list }
    {
        conjuncts(&self.pool.store, list)
    }

    /// The first location among the conjuncts, from left to right.
    pub fn first_place(&self, list: u32) -> Option<u32>
        requires { IsList (formulas_of self.now) list }
        ensures { result ≡ first_place_of (conjuncts_of (formulas_of self.now) list) }
    {
        let parts = conjuncts(&self.pool.store, list);
        first_place_of(&self.pool.store, list, parts)
    }

    /// The first boolean variable among the conjuncts, from left to right.
    pub fn first_truth(&self, list: u32) -> Option<u32>
        requires { IsList (formulas_of self.now) list }
        ensures { result ≡ first_truth_of (conjuncts_of (formulas_of self.now) list) }
    {
        let parts = conjuncts(&self.pool.store, list);
        first_truth_of(&self.pool.store, list, parts)
    }

    /// The lines among the conjuncts, lent.
    pub fn lines(&self, alloc: Global, list: u32) -> Result<Vec<LentLine<'_>>, Memory>
        requires { IsList (formulas_of self.now) list }
        ensures { IfOk result (λ v. map lent_line v.items ≡ lines_of (conjuncts_of (formulas_of self.now) list)) }
    {
        lines_of(alloc, &self.pool.store, conjuncts(&self.pool.store, list))
    }

    /// The rows among the conjuncts: of an equation its form, and its form times -1.
    pub fn rows(&self, alloc: Global, list: u32) -> Result<Vec<Lin>, Memory>
        requires { IsList (formulas_of self.now) list }
        ensures { IfOk result (λ v. v.items ≡ rows_of (conjuncts_of (formulas_of self.now) list)) }
    {
        rows_of(alloc, &self.pool.store, conjuncts(&self.pool.store, list))
    }
}

//! Formulas and lists of conjuncts by number. Equal formulas get equal numbers as far as the index finds them, so the work for a list
//! of conjuncts is done once.

ghost use Rattle.std.specs.Prelude.{◌≡◌, ◌<◌, ◌^◌, ◌∷◌, ◌++◌, [], IfOk, length, true, unsigned_abs, if◌then◌else◌};
ghost use Rattle.std.specs.Option.{option_map};
ghost use Rattle.st_linear.specs.Simple.{complement};
ghost use Rattle.st_form.specs.Formula.{every, none};
ghost use Rattle.st_form.specs.Plain.{plain_list};
ghost use Rattle.st_form.specs.Shared.{consequent_of};
ghost use Rattle.st_form.specs.Simple.{AreModest, IsModest, append, gathered, parts, simple_row, simples};
ghost use Rattle.farkas_check.specs.Problem.{split_from};
ghost use Rattle.form_table.specs.Table.{Extends};
ghost use Rattle.form_table.specs.Contents.{Grows, decision_at, formulas_of};
ghost use Rattle.form_table.specs.Lists.{AreSplit, IsList, IsListed, conjuncts_of, first_conjuncts};

use crate::beginnings::first_list;
use crate::choices::Decision;
use crate::joining::with_row;
use crate::lists::under_list;
use crate::memos::{Memo, forget, no_memo};
use crate::pools::{Pool, new_pool};
use crate::readings::{Readings, no_readings};
use crate::splitting::split;
use crate::stores::number_of;
use st_form::{Consequent, Lin, SharedForm};
use st_memory::Memory;
use std::alloc::Global;
use std::marker::Model;

/// Formulas by number, the decisions under which they may be asked for, and what was found of formulas under decisions and of
/// shared formulas.
#[derive(Drop)]
pub struct Table {
    pub(crate) pool: Pool,
    pub(crate) memo: Memo,
    pub(crate) readings: Readings,
    pub(crate) decisions: Vec<Decision>,
}

impl Model for Table {
    ghost use Rattle.form_table.specs.Nodes.{formulas_in};
    ghost use Rattle.form_table.specs.Contents.{Contents};
    ghost use Rattle.form_table.specs.Memory.{IsKnown, choices};

    ghost Value = { Contents };

    ghost view = { λ t. record { kept = t.pool.store; decisions = choices t.decisions.items } };

    ghost invariant = { λ t. IsKnown (formulas_in t.pool.store) (choices t.decisions.items) t.memo t.readings.entries.items };
}

impl Table {
    /// A table of the two truth values, without decisions.
    pub fn new(alloc: Global) -> Result<Table, Memory>
        ensures { IfOk result (λ t. t.decisions ≡ []) }
    {
        Ok(Table {
            pool: new_pool(alloc)?,
            memo: no_memo(alloc),
            readings: no_readings(alloc),
            decisions: Vec::new(alloc),
        })
    }

    /// Adds a decision, and gives its number.
    pub fn add(
        &mut self,
        truths: Vec<Option<bool>>,
        places: Vec<Option<bool>>,
    ) -> Result<u32, Memory>
        ensures formulas { Extends (formulas_of self.old) (formulas_of self.new) }
        ensures number { IfOk result (λ n. n ≡ length self.old.decisions) }
        ensures made { IfOk result (λ _. self.new.decisions ≡ self.old.decisions ++ record { truths = truths.items; places = places.items } ∷ []) }
    {
        let number = number_of(self.decisions.len())?;
        forget(&mut self.memo);
        self.decisions.push(Decision { truths, places })?;
        Ok(number)
    }

    /// The list of a condition's conjuncts, or None where one of them is false.
    pub fn first_list(
        &mut self,
        alloc: Global,
        given: &[SharedForm],
        shown: &Consequent,
    ) -> Result<Option<u32>, Memory>
        requires given { AreModest (plain_list given.now) }
        requires shown { IsModest (consequent_of shown.now) }
        ensures grows { Grows self.old self.new }
        ensures made { IfOk result (λ o. IsListed (formulas_of self.new) o (first_conjuncts (every (plain_list given.now)) (consequent_of shown.now))) }
    {
        first_list(alloc, &mut self.pool, &mut self.readings, given, shown)
    }

    /// The list under a decision, or None where one of its conjuncts is false.
    pub fn under(&mut self, alloc: Global, list: u32, decision: u32) -> Result<Option<u32>, Memory>
        requires list { IsList (formulas_of self.old) list }
        requires decision { decision < length self.old.decisions }
        ensures grows { Grows self.old self.new }
        ensures made { IfOk result (λ o. IsListed (formulas_of self.new) o
            (gathered true (simples (decision_at self.old.decisions decision) (conjuncts_of (formulas_of self.old) list) true))) }
    {
        under_list(
            alloc,
            &mut self.pool,
            &mut self.memo,
            self.decisions.as_slice(),
            decision,
            list,
        )
    }

    /// The lists that the k-th disjunction splits a list into, or None where there are fewer.
    pub fn split(&mut self, alloc: Global, list: u32, k: u32) -> Result<Option<Vec<u32>>, Memory>
        requires { IsList (formulas_of self.old) list }
        ensures grows { Grows self.old self.new }
        ensures made { IfOk result (λ o. AreSplit (formulas_of self.new) o (split_from none k (conjuncts_of (formulas_of self.old) list))) }
    {
        split(alloc, &mut self.pool, list, k)
    }

    /// The list with a simplified row at its end, or with its complement where the sign is minus; None where that is false.
    pub fn with_row(
        &mut self,
        alloc: Global,
        list: u32,
        f: &Lin,
        plus: bool,
    ) -> Result<Option<u32>, Memory>
        requires list { IsList (formulas_of self.old) list }
        requires small { unsigned_abs f.now.constant < 2 ^ 99 }
        ensures grows { Grows self.old self.new }
        ensures made { IfOk result (λ o. IsListed (formulas_of self.new) o
            (option_map (append (conjuncts_of (formulas_of self.old) list)) (parts true (simple_row (if plus then f.now else complement f.now))))) }
    {
        with_row(alloc, &mut self.pool, list, f, plus)
    }
}

//! The store of a table: its formulas, one after the other, each made of those before it.

ghost use Rattle.std.specs.Prelude.{◌≡◌, ◌+◌, ◌<◌, ◌≤◌, ◌∷◌, [], length, IfOk, true, false};
ghost use Rattle.st_form.specs.Formula.{truth_value};
ghost use Rattle.form_table.specs.Table.{Is};
ghost use Rattle.form_table.specs.Nodes.{formulas_in, line, IsNode, parts_at};

use crate::nodes::Node;
use st_form::Lin;
use st_memory::Memory;
use std::alloc::Global;
use std::marker::Model;

/// Formulas by number.
#[derive(Drop)]
pub struct Store {
    pub(crate) nodes: Vec<Node>,
    pub(crate) parts: Vec<u32>,
    pub(crate) lines: Vec<Lin>,
}

impl Model for Store {
    ghost use Rattle.form_table.specs.Nodes.{Kept, IsSound};

    ghost Value = { Kept };

    ghost view = { λ t. record { nodes = t.nodes.items; parts = t.parts.items; lines = t.lines.items } };

    ghost invariant = { λ t. IsSound (record { nodes = t.nodes.items; parts = t.parts.items; lines = t.lines.items }) };
}

impl Store {
    /// A store of the two truth values.
    pub fn new(alloc: Global) -> Result<Store, Memory>
        ensures { IfOk result (λ t. formulas_in t ≡ truth_value false ∷ truth_value true ∷ []) }
    {
        Ok(Store {
            nodes: vec![in alloc; Node::Truth(false), Node::Truth(true)]?,
            parts: Vec::new(alloc),
            lines: Vec::new(alloc),
        })
    }

    /// How many formulas there are.
    pub fn size(&self) -> usize
        ensures { result ≡ length (formulas_in self.now) }
    {
        self.nodes.len()
    }

    /// How many parts of conjunctions and disjunctions there are.
    pub fn part_count(&self) -> usize {
        self.parts.len()
    }

    /// The number of a truth value.
    pub fn truth(&self, value: bool) -> u32
        ensures { Is (formulas_in self.now) result (truth_value value) }
    {
        let _count = self.nodes.len();
        if value { 1 } else { 0 }
    }

    /// Whether a number has a formula.
    pub fn has(&self, number: u32) -> bool
        ensures { result ≡ true → number < length (formulas_in self.now) }
    {
        if (number as usize) < self.nodes.len() {
            return true;
        }
        false
    }

    /// What a number is made of.
    pub(crate) fn node(&self, number: u32) -> Node
        requires { number < length (formulas_in self.now) }
        ensures { IsNode self.now number result }
    {
        self.nodes[number as usize]
    }

    /// So many numbers from a place in the list of parts on.
    pub(crate) fn parts(&self, from: u32, count: u32) -> &[u32]
        requires { from + count ≤ length self.now.parts }
        ensures { result.now ≡ parts_at self.now.parts from count }
    {
        &self.parts[from as usize..from as usize + count as usize]
    }

    /// The form of a row or an equation.
    pub(crate) fn line(&self, number: u32) -> &Lin
        requires { number < length self.now.lines }
        ensures { result.now ≡ line self.now.lines number }
    {
        &self.lines[number as usize]
    }
}

/// A length as a number, where it isn't too large.
pub fn number_of(length: usize) -> Result<u32, Memory>
    ensures { IfOk result (λ n. n ≡ length) }
{
    match u32::try_from(length) {
        Ok(number) => Ok(number),
        Err(_) => Err(Memory),
    }
}

//! A table of trees.

ghost use Rattle.std.specs.Prelude.{◌≡◌, ◌+◌, ◌<◌, ◌≤◌, ◌∷◌, [], length, IfOk, true};
ghost use Rattle.st_certificate.specs.Tree.{impossible, branch, linear};
ghost use Rattle.search_laws.specs.Sizes.{IsModestTree};
ghost use Rattle.tree_table.specs.Table.{AreThere, Extends, Is, listed, step_of, tree};
ghost use Rattle.tree_table.specs.Nodes.{trees_in, IsFormed, IsNode, IsSize, formed, parts_at, picks_at};

use crate::nodes::{Kind, Node, Size, Step};
use crate::sizes::{LEAF, MOST_LEVELS, MOST_NODES, branch_size};
use st_memory::Memory;
use std::alloc::Global;
use std::marker::Model;

/// Trees by number.
#[derive(Drop)]
pub struct TreeTable {
    nodes: Vec<Node>,
    parts: Vec<u32>,
    picks: Vec<(u32, i64)>,
}

impl Model for TreeTable {
    ghost use Rattle.tree_table.specs.Nodes.{Kept, IsSound};

    ghost Value = { Kept };

    ghost view = { λ t. record { nodes = t.nodes.items; parts = t.parts.items; picks = t.picks.items } };

    ghost invariant = { λ t. IsSound (record { nodes = t.nodes.items; parts = t.parts.items; picks = t.picks.items }) };
}

impl TreeTable {
    /// A table of the tree of a false problem.
    pub fn new(alloc: Global) -> Result<TreeTable, Memory>
        ensures { IfOk result (λ t. trees_in t ≡ impossible ∷ []) }
    {
        let absurd = Node {
            kind: Kind::Absurd,
            size: LEAF,
        };
        Ok(TreeTable {
            nodes: vec![in alloc; absurd]?,
            parts: Vec::new(alloc),
            picks: Vec::new(alloc),
        })
    }

    /// Whether a number has a tree.
    pub fn has(&self, number: u32) -> bool
        ensures { result ≡ true → number < length (trees_in self.now) }
    {
        if (number as usize) < self.nodes.len() {
            return true;
        }
        false
    }

    /// The number of the tree of a false problem.
    pub fn absurd(&self) -> u32
        ensures { Is (trees_in self.now) result impossible }
    {
        // a field is read, so that the invariant is known
        let _count = self.nodes.len();
        0
    }

    /// What a number is made of.
    pub fn node(&self, number: u32) -> Node
        requires { number < length (trees_in self.now) }
        ensures { IsNode self.now number result }
    {
        self.nodes[number as usize]
    }

    /// So many numbers from a place in the list of parts on.
    pub fn parts(&self, from: u32, count: u32) -> &[u32]
        requires { from + count ≤ length self.now.parts }
        ensures { result.now ≡ parts_at self.now.parts from count }
    {
        &self.parts[from as usize..from as usize + count as usize]
    }

    /// So many picks from a place in the list of picks on.
    pub fn picks(&self, from: u32, count: u32) -> &[(u32, i64)]
        requires { from + count ≤ length self.now.picks }
        ensures { result.now ≡ picks_at self.now.picks from count }
    {
        &self.picks[from as usize..from as usize + count as usize]
    }

    /// Makes a node, which gets the next number.
    fn push(&mut self, kind: Kind, size: Size) -> Result<u32, Memory>
        requires formed { IsFormed self.old.parts self.old.picks (length self.old.nodes) kind }
        requires sized { IsSize size (formed self.old.parts self.old.picks (trees_in self.old) kind) }
        ensures extends { Extends (trees_in self.old) (trees_in self.new) }
        ensures made { IfOk result (λ n. Is (trees_in self.new) n (formed self.old.parts self.old.picks (trees_in self.old) kind)) }
    {
        let number = number_of(self.nodes.len())?;
        self.nodes.push(Node { kind, size })?;
        Ok(number)
    }

    /// A leaf of rows and equations, each with a multiplier.
    pub fn linear(&mut self, picks: &[(u32, i64)]) -> Result<u32, Memory>
        ensures extends { Extends (trees_in self.old) (trees_in self.new) }
        ensures made { IfOk result (λ n. Is (trees_in self.new) n (linear picks.now)) }
    {
        let from = number_of(self.picks.len())?;
        let count = number_of(picks.len())?;
        self.picks.extend_from_slice(picks)?;
        self.push(Kind::Linear(from, count), LEAF)
    }

    /// A branch over trees that have numbers.
    pub fn branch(&mut self, step: Step, parts: &[u32]) -> Result<u32, Memory>
        requires { AreThere (trees_in self.old) parts.now }
        ensures extends { Extends (trees_in self.old) (trees_in self.new) }
        ensures made { IfOk result (λ n. Is (trees_in self.new) n (branch (step_of step) (listed (trees_in self.old) parts.now))) }
    {
        let size = branch_size(self, parts);
        let from = number_of(self.parts.len())?;
        let count = number_of(parts.len())?;
        self.parts.extend_from_slice(parts)?;
        self.push(Kind::Branch(step, from, count), size)
    }

    /// Whether a number's tree is within the limits of certificates. It costs nothing.
    pub fn is_modest(&self, number: u32) -> bool
        requires { number < length (trees_in self.now) }
        ensures { result ≡ true → IsModestTree (tree (trees_in self.now) number) }
    {
        let size = self.node(number).size;
        if size.nodes > MOST_NODES {
            return false;
        }
        size.levels <= MOST_LEVELS
    }
}

/// A length as a number, where it isn't too large.
fn number_of(length: usize) -> Result<u32, Memory>
    ensures { IfOk result (λ n. n ≡ length) }
{
    match u32::try_from(length) {
        Ok(number) => Ok(number),
        Err(_) => Err(Memory),
    }
}

//! Formulas that are added to a store. Each gets the next number.

ghost use Rattle.std.specs.Prelude.{IfOk, length, true};
ghost use Rattle.st_form.specs.Formula.{row, equal, bool_var, at};
ghost use Rattle.st_form.specs.Simple.{signed};
ghost use Rattle.search_laws.specs.Steady.{IsSteady};
ghost use Rattle.form_table.specs.Table.{Is, Extends, AreThere, joined, listed};
ghost use Rattle.form_table.specs.Nodes.{formulas_in, IsFormed, formed};

use crate::nodes::Node;
use crate::stores::{Store, number_of};
use st_form::Lin;
use st_memory::Memory;

impl Store {
    /// Makes a node, which gets the next number.
    fn push(&mut self, node: Node) -> Result<u32, Memory>
        requires { IsFormed self.old.parts self.old.lines (length self.old.nodes) node }
        ensures extends { Extends (formulas_in self.old) (formulas_in self.new) }
        ensures made { IfOk result (λ n. Is (formulas_in self.new) n (formed self.old.parts self.old.lines (formulas_in self.old) node)) }
    {
        let number = number_of(self.nodes.len())?;
        self.nodes.push(node)?;
        Ok(number)
    }

    /// A boolean variable under a sign.
    pub fn boolean(&mut self, var: u32, plus: bool) -> Result<u32, Memory>
        ensures extends { Extends (formulas_in self.old) (formulas_in self.new) }
        ensures made { IfOk result (λ n. Is (formulas_in self.new) n (signed plus (bool_var var))) }
    {
        self.push(Node::BoolVar(var, plus))
    }

    /// A location under a sign.
    pub fn located(&mut self, location: u32, plus: bool) -> Result<u32, Memory>
        ensures extends { Extends (formulas_in self.old) (formulas_in self.new) }
        ensures made { IfOk result (λ n. Is (formulas_in self.new) n (signed plus (at location))) }
    {
        self.push(Node::At(location, plus))
    }

    /// A reduced row.
    pub fn row(&mut self, f: Lin) -> Result<u32, Memory>
        requires { IsSteady (row f) true }
        ensures extends { Extends (formulas_in self.old) (formulas_in self.new) }
        ensures made { IfOk result (λ n. Is (formulas_in self.new) n (row f)) }
    {
        let line = number_of(self.lines.len())?;
        self.lines.push(f)?;
        self.push(Node::Row(line))
    }

    /// A reduced equation.
    pub fn equal(&mut self, f: Lin) -> Result<u32, Memory>
        requires { IsSteady (equal f) true }
        ensures extends { Extends (formulas_in self.old) (formulas_in self.new) }
        ensures made { IfOk result (λ n. Is (formulas_in self.new) n (equal f)) }
    {
        let line = number_of(self.lines.len())?;
        self.lines.push(f)?;
        self.push(Node::Equal(line))
    }

    /// The conjunction or disjunction of formulas that have numbers.
    pub fn join(&mut self, all: bool, parts: &[u32]) -> Result<u32, Memory>
        requires { AreThere (formulas_in self.old) parts.now }
        ensures extends { Extends (formulas_in self.old) (formulas_in self.new) }
        ensures made { IfOk result (λ n. Is (formulas_in self.new) n (joined all (listed (formulas_in self.old) parts.now))) }
    {
        let from = number_of(self.parts.len())?;
        let count = number_of(parts.len())?;
        self.parts.extend_from_slice(parts)?;
        if all {
            self.push(Node::And(from, count))
        } else {
            self.push(Node::Or(from, count))
        }
    }
}

//! Programs.

use crate::search::find_among;
use crate::trees::{Child, Stmt};
use st_form::{Form, Variable};
use std::marker::Model;

/// A typed program: its variables, what holds of them at the beginning (the conjunction of the `where` formulas, in text
/// order), its processes, and how many locations and statements it has.
///
/// Occurrences and locations are numbered in text order. Each variable is used by its type, and input variables are never
/// changed. No block, process, child or group is empty, a selection has two branches or more and a cooperation two children
/// or more, and no branch of a selection begins with a loop.
///
/// Of the limits it keeps those on variables (64), processes (16), statements outside groups (400), paths of a group (64) and written
/// numbers (2^30 in right sides, less than 2^32 in comparisons), but not those on nesting, atoms and weight.
#[derive(Drop)]
pub struct Program {
    pub variables: Vec<Variable>,
    pub initial: Form,
    pub processes: Vec<Child>,
    pub locations: u32,
    pub statements: u32,
}

impl Model for Program {
    ghost use Rattle.st_form.specs.Plain.{plain};
    ghost use Rattle.st_program.specs.Plain.{plain_children};
    ghost use Rattle.st_program.specs.Programs.{View, view_code, IsProgram};

    ghost Value = { View };

    ghost coded = { view_code };

    ghost view = { λ p. record {
      variables = p.variables.items;
      initial = p.initial;
      processes = p.processes.items;
      locations = p.locations;
      statements = p.statements;
    } };

    ghost invariant = { λ p.
        IsProgram p.variables.items (plain p.initial) (plain_children p.processes.items) p.locations p.statements };
}

impl Program {
    ghost use Rattle.std.specs.Prelude.{◌≡◌};
    ghost use Rattle.std.specs.Option.{option_map};
    ghost use Rattle.st_program.specs.Plain.{plain_stmt, plain_children};
    ghost use Rattle.st_program.specs.Spots.{statement_at};

    /// The statement with this occurrence, or `None` where there is none.
    pub fn statement(&self, occ: u32) -> Option<&Stmt>
        ensures { option_map (λ s. plain_stmt s.now) result ≡ statement_at (plain_children self.now.processes) occ }
    {
        find_among(&self.processes, occ)
    }
}

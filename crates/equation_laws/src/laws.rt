//! The laws, as contracts of functions that do nothing.

ghost use Rattle.std.specs.Prelude.{◌≡◌, List, Some};
ghost use Rattle.null_laws.specs.Reduction.{Entries};
ghost use Rattle.null_laws.specs.Bases.{IsBasis};
ghost use Rattle.transition_system.specs.Systems.{System};
ghost use Rattle.transition_system.specs.Bounds.{IsSystem};
ghost use Rattle.equation_laws.specs.Space.{IsInductive, columns_of};
ghost use Rattle.equation_laws.specs.Rows.{basis_of};
ghost use Rattle.equation_laws.specs.Equations.{AreFound, found_in};
ghost use Rattle.equation_laws.specs.Moving.{MovesAdd};

/// The basis that the elimination gives is the reduced echelon basis of the space of all equations that every mode keeps and that
/// hold at the start.
pub fn the_basis_is_of_the_space()
    ensures { (system : System) (bs : List Entries) → IsSystem system → basis_of system ≡ Some bs
        → IsBasis (IsInductive system) (columns_of system) bs }
{}

/// What is found are equations of the space, and together with those that have no variable they span it.
pub fn what_is_found_spans()
    ensures { (system : System) (bs : List Entries) → IsSystem system → basis_of system ≡ Some bs → AreFound system (found_in system bs) }
{}

/// What the space is about are steps: where control is at each location that a mode leaves and at none of the others that it
/// enters, an equation's value behind the mode is the value before it and what the mode adds. So an equation that every mode keeps
/// has one value along such steps.
pub fn moves_add()
    ensures { MovesAdd }
{}

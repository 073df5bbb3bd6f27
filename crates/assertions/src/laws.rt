//! Laws of the reading of formulas. Each is a function that does nothing; its contract is the law.

ghost use Rattle.assertions.specs.Named.{FormFaultsAreNamed, LinearFaultsAreNamed};
ghost use Rattle.assertions.specs.Over.{FormsAreOver, LinearsAreOver};

/// An expression breaks none of the rules of declarations and statements: each fault of a formula is one of `FormFault`, and
/// none is want of memory.
pub fn form_faults_are_named()
    ensures { FormFaultsAreNamed }
{}

/// The same of integer expressions.
pub fn linear_faults_are_named()
    ensures { LinearFaultsAreNamed }
{}

/// A formula that was read with a program's names speaks of its variables by their types, and of its locations, with
/// numbers below 2^32.
pub fn forms_are_over()
    ensures { FormsAreOver }
{}

/// The same of integer expressions, whose numbers are at most 2^30.
pub fn linears_are_over()
    ensures { LinearsAreOver }
{}

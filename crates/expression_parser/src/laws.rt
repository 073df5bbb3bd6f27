//! Laws of the grammar of formulas. Each is a function that does nothing; its contract is the law.

ghost use Rattle.expression_parser.specs.Theorems.{FormulasReadOnce, FormulasAreLongest, FormulasFirstFault};

/// No list of tokens stands for two formulas, with or without the places that proofs name.
pub fn formulas_read_once()
    ensures { FormulasReadOnce }
{}

/// A formula that is read is the longest that stands there: none goes on over the token behind it.
pub fn formulas_are_longest()
    ensures { FormulasAreLongest }
{}

/// Where no formula is read, the fault is the first: the tokens before it begin some formula, and none goes on there.
pub fn formulas_first_fault()
    ensures { FormulasFirstFault }
{}

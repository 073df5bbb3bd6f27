//! Laws of formulas and integer expressions as they stand in proofs. Each is a function that does nothing; its contract is the law.

ghost use Rattle.assertion_grammar.specs.Theorems.{SumsReadOnce, SpelledFormsAreRead, SpelledLinearsAreRead, FormsAreTold, LinearsAreTold};

/// No list of tokens stands for two integer expressions. Of formulas `expression_parser` says it.
pub fn sums_read_once()
    ensures { SumsReadOnce }
{}

/// Tokens that spell a formula of at most 32 levels, which breaks no rule, are read as its meaning before a token that continues
/// none.
pub fn spelled_forms_are_read()
    ensures { SpelledFormsAreRead }
{}

/// The same of integer expressions.
pub fn spelled_linears_are_read()
    ensures { SpelledLinearsAreRead }
{}

/// What is read of a text at a place is the meaning of the longest formula there, which breaks no rule; else the fault is the
/// lowest rule that is broken at the first place, or the grammar's first fault, or nesting where the limit is met.
pub fn forms_are_told()
    ensures { FormsAreTold }
{}

/// The same of integer expressions.
pub fn linears_are_told()
    ensures { LinearsAreTold }
{}

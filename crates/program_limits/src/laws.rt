//! Laws of the limits of programs. Each is a function that does nothing; its contract is the law.

ghost use Rattle.program_limits.specs.Theorems.{LimitsInOrder, LimitsAreSettled, OneIsSettled};

/// A program by the grammar is read exactly where it is within its limits. Else it is refused for exactly that limit that it
/// passes first, in the order of its text, and at the place where it does.
pub fn limits_in_order()
    ensures { LimitsInOrder }
{}

/// A limit is named only where the tokens read settle that it is passed: some program begins so, and each that does passes
/// this limit first, at this place. For that on nesting each is one whose formulas are within it.
pub fn limits_are_settled()
    ensures { LimitsAreSettled }
{}

/// No text settles two limits for all programs, nor two places of one.
pub fn one_limit_is_settled()
    ensures { OneIsSettled }
{}

//! The law, the contract of a function that does nothing.

ghost use Rattle.equation_writer.specs.Proper.{FoundAreProper};

/// In equations that are found variables and locations rise, no coefficient is 0, and each number is below 2^100 in size.
pub fn what_is_found_is_proper()
    ensures { FoundAreProper }
{}

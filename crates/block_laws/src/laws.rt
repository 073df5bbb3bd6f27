//! The laws. Each is a function that does nothing; its contract is the law.

ghost use Rattle.block_laws.specs.Laws.{TestIsExact, BlocksAreLimited, BlocksAreExact};

/// Validity of certificates as a test is the relation.
pub fn test_is_exact()
    ensures { TestIsExact }
{}

/// What is read as a block is within the limits that checking asks for.
pub fn blocks_are_limited()
    ensures { BlocksAreLimited }
{}

/// All conditions are discharged, and nothing stands behind their blocks, exactly where the text holds a valid block for each
/// condition, in order, and only blanks behind the last.
pub fn blocks_are_exact()
    ensures { BlocksAreExact }
{}

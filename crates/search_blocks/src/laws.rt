//! The laws. Each is a function that does nothing; its contract is the law.

ghost use Rattle.search_blocks.specs.Laws.{FoundAreWritten, TextsHoldBlocks};

/// Each certificate that is found is what a block within the limits means.
pub fn found_are_written()
    ensures { FoundAreWritten }
{}

/// The text of certificates holds a valid block for each condition, in order, and only blanks behind the last.
pub fn texts_hold_blocks()
    ensures { TextsHoldBlocks }
{}

//! The laws. Each is a function that does nothing; its contract is the law.

ghost use Rattle.cert_laws.specs.Laws.{SpelledIsRead, HeaderIsRead, WrittenIsRead, OneBlock, ReadIsSpelled, TrailingIsBlank, AnswersStay};
ghost use Rattle.cert_laws.specs.Refused.{NeedIsExact, EndIsExact, LimitIsExact, MalformedIsExact, MarksAreLimits};

/// Bytes that spell a block are read as that block, wherever they stand and whatever follows them.
pub fn spelled_is_read()
    ensures { SpelledIsRead }
{}

/// A header before the first block is taken with it, and the rules are those of version 2 from then on.
pub fn header_is_read()
    ensures { HeaderIsRead }
{}

/// What is written is read.
pub fn written_is_read()
    ensures { WrittenIsRead }
{}

/// No text begins with two blocks.
pub fn one_block()
    ensures { OneBlock }
{}

/// Only what is spelled is read as a block.
pub fn read_is_spelled()
    ensures { ReadIsSpelled }
{}

/// What `trailing` takes as blank is read as blank.
pub fn trailing_is_blank()
    ensures { TrailingIsBlank }
{}

/// An answer that doesn't ask for more is that of the whole text, whatever is still to come.
pub fn answers_stay()
    ensures { AnswersStay }
{}

/// More is needed exactly where the text is open and what is held begins a block.
pub fn need_is_exact()
    ensures { NeedIsExact }
{}

/// The end is answered exactly where the text is finished and only blanks are left.
pub fn end_is_exact()
    ensures { EndIsExact }
{}

/// A limit is answered exactly at the first ended token that passes one, where all before it begin a block.
pub fn limit_is_exact()
    ensures { LimitIsExact }
{}

/// A text is malformed exactly at the first token with which no block is begun, or at its end where it breaks off.
pub fn malformed_is_exact()
    ensures { MalformedIsExact }
{}

/// Each token of a block has a mark, and a block is within the limits exactly where none of its tokens is marked.
pub fn marks_are_limits()
    ensures { MarksAreLimits }
{}

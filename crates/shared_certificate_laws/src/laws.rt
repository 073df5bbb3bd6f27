//! The laws, over all texts. Each is a function that does nothing; its contract is the law.

ghost use Rattle.shared_certificate_laws.specs.Laws.{LineIsExact, ReadOnce, RefusalIsExact, TextIsExact};

/// The words of a line are read to what they spell, and to nothing else.
pub fn line_is_exact()
    ensures { LineIsExact }
{}

/// A text is read to a table exactly where it spells that table.
pub fn text_is_exact()
    ensures { TextIsExact }
{}

/// A text stands for one table.
pub fn read_once()
    ensures { ReadOnce }
{}

/// A text is refused at a place exactly where its first wrong line stands there.
pub fn refusal_is_exact()
    ensures { RefusalIsExact }
{}

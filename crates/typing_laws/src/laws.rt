//! Laws of programs' texts, over reading and typing together. Each is a function that does nothing; its contract is the law.

ghost use Rattle.typing_laws.specs.Laws.{ReadIsTyped, TypedIsWell};

/// A program that was read is typed exactly where no rule is broken in it. Else the answer is the lowest rule that is broken
/// at the first place where one is. None of the limits is among the rules that no program breaks that was read.
pub fn read_is_typed()
    ensures { ReadIsTyped }
{}

/// What typing gives is a program: well formed, each part of it of its type, and within the limits. So whatever is said of a
/// program goes for the one that a text spells.
pub fn typed_is_well()
    ensures { TypedIsWell }
{}

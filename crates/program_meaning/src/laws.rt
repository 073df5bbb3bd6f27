//! Laws of which program a text is. Each is a function that does nothing; its contract is the law.

ghost use Rattle.program_meaning.specs.Theorems.{DenotesIsMeans, MeantOnce, MeansIsTyping, SmallIsWithin};

/// A tree stands for one program at most.
pub fn meant_once()
    ensures { MeantOnce }
{}

/// Typing gives a program exactly where no rule is broken and the tree stands for this one.
pub fn means_is_typing()
    ensures { MeansIsTyping }
{}

/// What a tree denotes, place by place, is what it means.
pub fn denotes_is_means()
    ensures { DenotesIsMeans }
{}

/// A program is small where the parser finds it within its limits.
pub fn small_is_within()
    ensures { SmallIsWithin }
{}

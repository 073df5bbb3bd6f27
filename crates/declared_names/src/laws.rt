//! The law, the contract of a function that does nothing.

ghost use Rattle.declared_names.specs.Words.{NamesAreWords};

/// Each name of a variable, and each label, of a program that a text spells is a name as texts have it, and no two are the same.
pub fn names_are_words()
    ensures { NamesAreWords }
{}

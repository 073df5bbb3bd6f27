//! Laws of transition systems. Each is a function that does nothing; its contract is the law.

ghost use Rattle.denoted_system.specs.Theorems.{SystemIsTranslation};

/// The system that a program denotes is the one that it is translated to.
pub fn system_is_translation()
    ensures { SystemIsTranslation }
{}

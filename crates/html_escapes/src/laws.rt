//! What escaped texts are. The law is the contract of a function that does nothing.

ghost use Rattle.html_escapes.specs.Escapes.{EscapesAreInert};

/// An escaped text has no `<`, no `>` and no `"`.
pub fn escapes_are_inert()
    ensures { EscapesAreInert }
{}

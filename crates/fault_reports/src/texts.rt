//! Which kind of text is read, and over which program.

ghost use Rattle.fault_reports.specs.Named.{AreNamed};

use posed_conditions::TranslatedProgram;

/// A program that was translated from a text.
#[derive(Clone, Copy)]
pub(crate) struct Translated<'a> {
    pub source: &'a TranslatedProgram,
    ghost named: { AreNamed source.now },
}

/// Which text is read, and over which program.
#[derive(Clone, Copy)]
pub(crate) enum Reader<'a> {
    Program,
    Proof(Translated<'a>),
    Schedule(Translated<'a>),
}

//! How much of a statement was read before it is told what it is.

ghost use Rattle.std.specs.Prelude.{◌≡◌};
ghost use Rattle.spl_parser.specs.Statements.{goes_on, front_place};
ghost use Rattle.spl_parser.specs.Begun.{begun_view};

use crate::sign::{begins, start_of};
use st_reading::{Mark, RawName, Sign, is};

/// How much of a statement was read before.
#[derive(Clone, Copy, Debug)]
pub enum Begun<'a> {
    /// Nothing; it stands inside a group where `true`.
    Fresh(bool),
    /// Its first name, and there is no colon behind it.
    AfterName(RawName<'a>),
    /// Its label, with the colon.
    AfterLabel(RawName<'a>),
}

/// Whether a statement goes on with that token.
pub fn goes_on(begun: Begun, sign: Sign) -> bool
    ensures { result ≡ goes_on (begun_view begun.entry) sign }
{
    match begun {
        Begun::Fresh(grouped) => begins(grouped, start_of(sign)),
        Begun::AfterName(_) => is(sign, Mark::Becomes),
        Begun::AfterLabel(_) => begins(false, start_of(sign)),
    }
}

/// The place of a statement's first token, where the next token stands at `place`.
pub fn front_place(begun: Begun, place: u64) -> u64
    ensures { result ≡ front_place (begun_view begun.entry) place }
{
    match begun {
        Begun::Fresh(_) => place,
        Begun::AfterName(name) => name.place,
        Begun::AfterLabel(label) => label.place,
    }
}

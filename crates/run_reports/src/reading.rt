//! The texts of a run, read: a program with its raw tree, and a schedule over it. A text that is refused gives nothing.

ghost use Rattle.std.specs.Prelude.{◌<◌, ◌^◌, length, IfOk, IfSome};
ghost use Rattle.posed_conditions.specs.Translated.{IsTranslated, IsOfText};
ghost use Rattle.run_reports.specs.Playable.{IsPlayable, Spells};

use posed_conditions::{PosingFault, TranslatedProgram, translate_text};
use schedule_reader::laws::schedules_obey;
use schedule_reader::{Schedule, ScheduleFault, read_schedule};
use spl_parser::{ParseFault, RawProgram, parse_program};
use st_memory::Memory;
use std::alloc::Global;

/// The longest text that is read, in bytes.
pub const LONGEST: usize = 4_194_304;

/// The program that a text spells; `None` where it is refused.
pub fn translated_program(alloc: Global, text: &[u8]) -> Result<Option<TranslatedProgram>, Memory>
    ensures translated { IfOk result (λ o. IfSome o IsTranslated) }
    ensures text { IfOk result (λ o. IfSome o (IsOfText text.now)) }
{
    match translate_text(alloc, text) {
        Ok(source) => Ok(Some(source)),
        Err(PosingFault::Memory) => Err(Memory),
        Err(_) => Ok(None),
    }
}

/// The tree of the program that a text spells; `None` where it is refused.
pub fn raw_program<'a>(alloc: Global, text: &'a [u8]) -> Result<Option<RawProgram<'a>>, Memory> {
    match parse_program(alloc, text) {
        Ok(raw) => Ok(Some(raw)),
        Err(ParseFault::Memory) => Err(Memory),
        Err(_) => Ok(None),
    }
}

/// The schedule that a text spells; `None` where it is refused. It is one that can be played.
pub fn playable_schedule(
    alloc: Global,
    text: &[u8],
    source: &TranslatedProgram,
) -> Result<Option<Schedule>, Memory>
    requires short { length text.now < 2 ^ 32 }
    requires translated { IsTranslated source.now }
    ensures playable { IfOk result (λ o. IfSome o (IsPlayable source.now)) }
    ensures spells { IfOk result (λ o. IfSome o (Spells source.now text.now)) }
{
    schedules_obey();
    match read_schedule(alloc, text, &source.program, &source.names) {
        Ok(schedule) => Ok(Some(schedule)),
        Err(ScheduleFault::Memory) => Err(Memory),
        Err(_) => Ok(None),
    }
}

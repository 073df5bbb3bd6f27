//! The readers of the three kinds of texts, each asked for the first refusal alone.

ghost use Rattle.std.specs.Prelude.{◌≡◌, ◌<◌, ◌≤◌, ◌^◌, IfOk, length};
ghost use Rattle.std.specs.Option.{option_map};
ghost use Rattle.fault_reports.specs.Named.{AreNamed};
ghost use Rattle.fault_reports.specs.Refused.{program_refused, proof_refused, schedule_refused};
ghost use Rattle.fault_reports.specs.Told.{place_of, refused_in};

use crate::refusal::{Refusal, of_parse, of_schedule, of_script, of_typing};
use crate::texts::Reader;
use posed_conditions::TranslatedProgram;
use proof_script::read_script;
use schedule_reader::read_schedule;
use spl_parser::parse_program;
use spl_typer::type_program;
use st_memory::Memory;
use std::alloc::Global;

#[tactic(auto, using(crate::proofs::Placed::stops, crate::proofs::Placed::mistypes), unfolding(crate::specs::Refused::program_refused))]
fn program(alloc: Global, text: &[u8]) -> Result<Option<Refusal>, Memory>
    ensures { IfOk result (λ o. option_map place_of o ≡ program_refused text.now) }
{
    match parse_program(alloc, text) {
        Ok(raw) => match type_program(alloc, &raw) {
            Ok(_) => Ok(None),
            Err(fault) => Ok(Some(of_typing(fault)?)),
        },
        Err(fault) => Ok(Some(of_parse(fault)?)),
    }
}

#[tactic(auto, using(crate::proofs::Placed::stops), unfolding(crate::specs::Refused::proof_refused))]
fn proof(alloc: Global, source: &TranslatedProgram, text: &[u8]) -> Result<Option<Refusal>, Memory>
    requires { length text.now < 2 ^ 32 }
    ensures { IfOk result (λ o. option_map place_of o ≡ proof_refused source.now text.now) }
{
    match read_script(alloc, text, &source.names, &source.system) {
        Ok(_) => Ok(None),
        Err(fault) => Ok(Some(of_script(fault)?)),
    }
}

#[tactic(auto, using(crate::proofs::Placed::stops), unfolding(crate::specs::Refused::schedule_refused))]
fn schedule(
    alloc: Global,
    source: &TranslatedProgram,
    text: &[u8],
) -> Result<Option<Refusal>, Memory>
    requires short { length text.now < 2 ^ 32 }
    requires named { AreNamed source.now }
    ensures { IfOk result (λ o. option_map place_of o ≡ schedule_refused source.now text.now) }
{
    match read_schedule(alloc, text, &source.program, &source.names) {
        Ok(_) => Ok(None),
        Err(fault) => Ok(Some(of_schedule(fault)?)),
    }
}

impl Reader<'_> {
    /// The first refusal of a text; `None` where it is read, or longer than any that is.
    pub(crate) fn refusal(&self, alloc: Global, text: &[u8]) -> Result<Option<Refusal>, Memory>
        ensures { length text.now ≤ 4194304 → IfOk result (λ o. option_map place_of o ≡ refused_in self.now text.now) }
    {
        if 16_777_216 < text.len() {
            return Ok(None);
        }
        match self {
            Reader::Program => program(alloc, text),
            Reader::Proof(over) => proof(alloc, over.source, text),
            Reader::Schedule(over) => schedule(alloc, over.source, text),
        }
    }
}

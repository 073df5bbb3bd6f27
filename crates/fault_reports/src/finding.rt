//! The faults of a text: the first as the reader names it, and those behind it that don't rest on it.

ghost use Rattle.std.specs.Prelude.{◌≡◌, ◌≤◌, IfOk, IfSome, Some, length, nat_lt};
ghost use Rattle.posed_conditions.specs.Translated.{IsTranslated};
ghost use Rattle.fault_reports.specs.Refused.{program_refused, within_limit};
ghost use Rattle.fault_reports.specs.Told.{IsFirst, first_spot, first_told, refused_in};

use crate::describing::{Setting, described};
use crate::mending::mended;
use crate::refusal::{Kind, Refusal};
use crate::source::{Source, TextFile};
use crate::texts::{Reader, Translated};
use obligations::ObligationFault;
use posed_conditions::{PosingFault, TranslatedProgram, pose_script, translate_text};
use proof_reports::Fault;
use source_places::step_places;
use st_memory::Memory;
use st_tokens::LimitKind;
use std::alloc::Global;
use step_report::most;

/// How many faults are told.
const MOST: usize = 10;

/// A refusal of a mended text, with its place in the text as it is.
fn unmended(text: &[u8], mended: &[u8], refusal: Refusal) -> Refusal {
    let behind = (mended.len() as u64).saturating_sub(refusal.place);
    Refusal {
        kind: refusal.kind,
        place: (text.len() as u64).saturating_sub(behind),
    }
}

/// Whether a fault stands behind what the last is told of.
fn is_later(faults: &[Fault], place: u64) -> bool {
    match faults.last() {
        Some(fault) => fault.spots.first().is_none_or(|spot| spot.offset < place)
            && fault.spots.iter().all(|spot| spot.offset != place),
        None => true,
    }
}

/// Whether a step is `by find` at a place, which is no fault where a proof is looked for: of a response the reader stops at `by`, of a
/// waiting-for at `find`.
fn is_by_find(source: &Source, place: u64) -> bool {
    match source.word_at(place) {
        "by" => source.word(source.index_at(place).saturating_add(1)) == "find",
        "find" => source.word_before(place, 1) == "by",
        _ => false,
    }
}

/// The bytes before a place.
fn before(text: &[u8], place: u64) -> &[u8] {
    text.split_at(text.len().min(place as usize)).0
}

/// The first fault, which tells of this refusal, and those behind it that don't rest on those before them.
#[tactic(auto, using(crate::proofs::Placed::first_stays))]
fn with_further(
    alloc: Global,
    setting: &Setting,
    refusal: Refusal,
    first: Fault,
) -> Result<Vec<Fault>, Memory>
    ensures { IfOk result (λ v. first_told v.items ≡ Some (first_spot first.spots.items)) }
{
    let source = setting.source;
    let whole = source.file.text;
    let mut out = vec![in alloc; first]?;
    let mut text = Vec::from_slice(alloc, whole)?;
    let mut last = refusal;
    for _ in 1..MOST {
        let Some(next) = mended(alloc, &setting.reader, &text, last)? else {
            break;
        };
        text = next;
        let Some(found) = setting.reader.refusal(alloc, &text)? else {
            break;
        };
        let there = unmended(whole, &text, found);
        if !is_later(&out, there.place) || is_by_find(source, there.place) {
            break;
        }
        out.push(described(alloc, setting, before(&text, found.place), there)?)?;
        last = found;
    }
    Ok(out)
}

/// The faults of a text.
fn faults(alloc: Global, setting: &Setting) -> Result<Vec<Fault>, Memory>
    ensures { length setting.now.source.now.file.text.now ≤ 4194304
        → IfOk result (λ v. IsFirst (refused_in setting.now.reader setting.now.source.now.file.text.now) v.items) }
{
    let source = setting.source;
    let text = source.file.text;
    match setting.reader.refusal(alloc, text)? {
        Some(refusal) => {
            let first = described(alloc, setting, before(text, refusal.place), refusal)?;
            with_further(alloc, setting, refusal, first)
        }
        None => Ok(Vec::new(alloc)),
    }
}

/// One fault alone.
fn only(alloc: Global, fault: Fault) -> Result<Vec<Fault>, Memory>
    ensures { IfOk result (λ v. first_told v.items ≡ Some (first_spot fault.spots.items)) }
{
    Ok(vec![in alloc; fault]?)
}

/// Whether a text is longer than any that is read.
fn is_too_long(text: &[u8]) -> bool
    ensures { result ≡ nat_lt 4194304 (length text.now) }
{
    most(LimitKind::Text) < text.len() as u64
}

/// The fault of a text that passes a limit at a place.
fn passed(
    alloc: Global,
    setting: &Setting,
    kind: LimitKind,
    place: u64,
) -> Result<Vec<Fault>, Memory>
    ensures { IfOk result (λ v. IsFirst (Some place) v.items) }
{
    let refusal = Refusal {
        kind: Kind::Limit(kind),
        place,
    };
    only(alloc, described(alloc, setting, b"".as_slice(), refusal)?)
}

/// The faults of a text, or the limit that its length passes.
fn faults_within(alloc: Global, setting: &Setting) -> Result<Vec<Fault>, Memory>
    ensures { IfOk result (λ v. IsFirst (within_limit setting.now.source.now.file.text.now (refused_in setting.now.reader setting.now.source.now.file.text.now)) v.items) }
{
    let source = setting.source;
    if is_too_long(source.file.text) {
        return passed(alloc, setting, LimitKind::Text, most(LimitKind::Text));
    }
    faults(alloc, setting)
}

/// The faults of a program; none where it is read and typed. The first is the one that `step` names.
pub fn faults_of_program(alloc: Global, program: TextFile) -> Result<Vec<Fault>, Memory>
    ensures { IfOk result (λ v. IsFirst (within_limit program.entry.text.now (program_refused program.entry.text.now)) v.items) }
{
    let source = Source::new(alloc, program)?;
    let setting = Setting {
        reader: Reader::Program,
        source: &source,
        program: &source,
    };
    faults_within(alloc, &setting)
}

/// The limit that conditions pass, and the number of the step where they do.
fn limit_of(fault: ObligationFault) -> Option<(LimitKind, u32)> {
    match fault {
        ObligationFault::TooMany(step) => Some((LimitKind::Conditions, step)),
        ObligationFault::TooWide(step) => Some((LimitKind::Atoms, step)),
        ObligationFault::TooHeavy(step) => Some((LimitKind::Weight, step)),
        ObligationFault::Memory => None,
    }
}

/// The place of a step.
fn step_place(alloc: Global, text: &[u8], step: u32) -> Result<u64, Memory> {
    let places = step_places(alloc, text)?;
    Ok(match places.get(step as usize) {
        Some(place) => place.name.from,
        None => 0,
    })
}

/// The limit that the conditions of a proof pass, as a fault.
fn limits(alloc: Global, setting: &Setting, posed: PosingFault) -> Result<Vec<Fault>, Memory> {
    let PosingFault::Conditions(fault) = posed else {
        return Ok(Vec::new(alloc));
    };
    let source = setting.source;
    match limit_of(fault) {
        Some((kind, step)) => {
            let place = step_place(alloc, source.file.text, step)?;
            passed(alloc, setting, kind, place)
        }
        None => Err(Memory),
    }
}

/// The faults of a proof whose text is read: the limit that its conditions pass.
fn faults_of_conditions(
    alloc: Global,
    setting: &Setting,
    program: &TranslatedProgram,
) -> Result<Vec<Fault>, Memory>
    requires { IsTranslated program.now }
{
    let source = setting.source;
    match pose_script(alloc, program, source.file.text) {
        Ok(_) => Ok(Vec::new(alloc)),
        Err(PosingFault::Memory) => Err(Memory),
        Err(fault) => limits(alloc, setting, fault),
    }
}

/// The program that a text spells; `None` where it is refused.
fn translated(alloc: Global, text: &[u8]) -> Result<Option<TranslatedProgram>, Memory>
    ensures { IfOk result (λ o. IfSome o IsTranslated) }
{
    if is_too_long(text) {
        return Ok(None);
    }
    match translate_text(alloc, text) {
        Ok(source) => Ok(Some(source)),
        Err(PosingFault::Memory) => Err(Memory),
        Err(_) => Ok(None),
    }
}

/// A translated program as one that texts are read over.
#[tactic(auto, using(crate::proofs::Naming::names_are))]
fn over(source: &TranslatedProgram) -> Translated<'_>
    requires { IsTranslated source.now }
{
    Translated { source }
}

/// The faults of a proof over a translated program.
fn faults_over(
    alloc: Global,
    translated: &TranslatedProgram,
    program: TextFile,
    proof: TextFile,
) -> Result<Vec<Fault>, Memory>
    requires { IsTranslated translated.now }
{
    let below = Source::new(alloc, program)?;
    let source = Source::new(alloc, proof)?;
    let setting = Setting {
        reader: Reader::Proof(over(translated)),
        source: &source,
        program: &below,
    };
    let found = faults_within(alloc, &setting)?;
    if found.is_empty() {
        faults_of_conditions(alloc, &setting, translated)
    } else {
        Ok(found)
    }
}

/// The faults of a proof, or those of the program that it is over; none where its conditions can be decided.
pub fn faults_of_proof(
    alloc: Global,
    program: TextFile,
    proof: TextFile,
) -> Result<Vec<Fault>, Memory> {
    match translated(alloc, program.text)? {
        Some(source) => faults_over(alloc, &source, program, proof),
        None => faults_of_program(alloc, program),
    }
}

/// The faults of a schedule over a translated program.
fn faults_under(
    alloc: Global,
    translated: &TranslatedProgram,
    program: TextFile,
    schedule: TextFile,
) -> Result<Vec<Fault>, Memory>
    requires { IsTranslated translated.now }
{
    let below = Source::new(alloc, program)?;
    let source = Source::new(alloc, schedule)?;
    let setting = Setting {
        reader: Reader::Schedule(over(translated)),
        source: &source,
        program: &below,
    };
    faults_within(alloc, &setting)
}

/// The fault of a schedule, or those of the program that it is over.
pub fn faults_of_schedule(
    alloc: Global,
    program: TextFile,
    schedule: TextFile,
) -> Result<Vec<Fault>, Memory> {
    match translated(alloc, program.text)? {
        Some(source) => faults_under(alloc, &source, program, schedule),
        None => faults_of_program(alloc, program),
    }
}

//! What is said of a refusal: the sentence of its kind, and what the texts show beside.

ghost use Rattle.std.specs.Prelude.{◌≡◌, IfOk, Some};
ghost use Rattle.fault_reports.specs.Told.{first_spot};

use crate::advice::help_for_bytes;
use crate::comments::{NO_REMAINDER, remainder_before, remainder_in_sum};
use crate::lemmas::{declared, is_boolean, labelled, steps};
use crate::meant::{COMPARED, help_for_name};
use crate::names::{labels_like, nearest};
use crate::refusal::{Kind, Refusal};
use crate::source::{Source, broken_at, word_of};
use crate::syntax::syntax_words;
use crate::texts::Reader;
use crate::told::told_of;
use crate::transitions::transition_words;
use proof_reports::{Fault, Severity};
use source_places::Span;
use st_memory::Memory;
use st_tokens::LimitKind;
use std::alloc::Global;
use step_report::most;

/// The texts that a refusal is told of: the one that is read, and the program that it is over.
#[derive(Clone, Copy)]
pub(crate) struct Setting<'s, 't, 'p> {
    pub reader: Reader<'s>,
    pub source: &'s Source<'t>,
    pub program: &'s Source<'p>,
}

/// A fault with the words of its kind alone, and without a place.
fn plain(alloc: Global, setting: &Setting, kind: Kind) -> Result<Fault, Memory> {
    let told = told_of(&setting.reader, kind);
    let mut help = Vec::new(alloc);
    if !told.help.is_empty() {
        help.push(String::from_str(alloc, told.help)?)?;
    }
    Ok(Fault {
        severity: Severity::Error,
        code: String::from_str(alloc, told.code)?,
        sentence: String::from_str(alloc, told.sentence)?,
        spots: Vec::new(alloc),
        expected: Vec::new(alloc),
        help,
    })
}

/// Another help in place of that of the kind.
fn helped(alloc: Global, fault: &mut Fault, help: &str) -> Result<(), Memory> {
    fault.help.clear();
    fault.help.push(String::from_str(alloc, help)?)?;
    Ok(())
}

/// Help for a name, if a near one is known.
fn near_help(alloc: Global, fault: &mut Fault, near: Option<&str>) -> Result<(), Memory> {
    match near {
        Some(near) => {
            let help = format!(in alloc; "did you mean `{near}`?")?;
            helped(alloc, fault, &help)
        }
        None => Ok(()),
    }
}

/// Where the text before a fault ends, if that is on an earlier line: what is missing is often missing there.
fn line_before(
    alloc: Global,
    setting: &Setting,
    place: u64,
    fault: &mut Fault,
) -> Result<(), Memory> {
    let source = setting.source;
    let Some(index) = source.index_at(place).checked_sub(1) else {
        return Ok(());
    };
    if let Some(token) = source.tokens.get(index) {
        let span = Span::of(token);
        if source.lines.position(span.to).line < source.lines.position(place).line {
            fault
                .spots
                .push(source.spot(alloc, span, "the text before it ends here")?)?;
        }
    }
    Ok(())
}

/// A `%` that was meant for a remainder.
fn remainder(
    alloc: Global,
    setting: &Setting,
    span: Span,
    fault: &mut Fault,
) -> Result<(), Memory> {
    let source = setting.source;
    fault
        .spots
        .push(source.spot(alloc, span, "a comment begins here")?)?;
    helped(alloc, fault, NO_REMAINDER)
}

fn syntax(
    alloc: Global,
    setting: &Setting,
    before: &[u8],
    place: u64,
    fault: &mut Fault,
) -> Result<(), Memory> {
    let words = syntax_words(alloc, &setting.reader, setting.source, before, place)?;
    fault.sentence = words.sentence;
    fault.expected = words.expected;
    if let Some(span) = remainder_before(setting.source, place) {
        return remainder(alloc, setting, span, fault);
    }
    line_before(alloc, setting, place, fault)?;
    match words.help {
        Some(help) => helped(alloc, fault, &help),
        None => Ok(()),
    }
}

fn bad_byte(alloc: Global, setting: &Setting, place: u64, fault: &mut Fault) -> Result<(), Memory> {
    match help_for_bytes(setting.source.rest(place)) {
        Some(help) => helped(alloc, fault, help),
        None => Ok(()),
    }
}

/// A variable of a program that isn't declared.
fn undeclared(
    alloc: Global,
    setting: &Setting,
    word: &str,
    fault: &mut Fault,
) -> Result<(), Memory> {
    let labels = labelled(alloc, setting.source)?;
    if labels.iter().any(|label| *label == word) {
        fault.sentence = format!(in alloc; "`{word}` is a label, and no variable")?;
        return Ok(());
    }
    fault.sentence = format!(in alloc; "no variable `{word}` is declared here")?;
    let variables = declared(alloc, setting.source)?;
    near_help(alloc, fault, nearest(alloc, word, &variables)?)
}

/// A name behind `at` that is no label: a near one, or those that there are.
fn no_label(alloc: Global, setting: &Setting, word: &str, fault: &mut Fault) -> Result<(), Memory> {
    fault.sentence = format!(in alloc; "the program has no label `{word}`")?;
    let labels = labelled(alloc, setting.program)?;
    if let Some(near) = nearest(alloc, word, &labels)? {
        return near_help(alloc, fault, Some(near));
    }
    fault.help.clear();
    match labels_like(alloc, word, &labels)? {
        Some(help) => helped(alloc, fault, &help),
        None => Ok(()),
    }
}

/// A name in a formula that is no variable.
fn no_variable(
    alloc: Global,
    setting: &Setting,
    place: u64,
    fault: &mut Fault,
) -> Result<(), Memory> {
    let word = setting.source.word_at(place);
    let labels = labelled(alloc, setting.program)?;
    let label = word.strip_prefix("at_").unwrap_or(word);
    if let (Reader::Schedule(_), true) = (
        setting.reader,
        labels.iter().any(|other| *other == word),
    ) {
        fault.sentence = format!(in alloc; "`{word}` is a label, and no variable")?;
        return helped(alloc, fault, "moves stand behind `::`");
    }
    if labels.iter().any(|other| *other == label) {
        fault.sentence = if label == word {
            format!(in alloc; "`{word}` is a label, and no formula")?
        } else {
            format!(in alloc; "the program has no variable `{word}`")?
        };
        let help = format!(in alloc; "write `at {label}`")?;
        return helped(alloc, fault, &help);
    }
    fault.sentence = format!(in alloc; "the program has no variable `{word}`")?;
    if let Some(help) = help_for_name(setting.source.word_before(place, 1), word) {
        return helped(alloc, fault, help);
    }
    let variables = declared(alloc, setting.program)?;
    near_help(alloc, fault, nearest(alloc, word, &variables)?)
}

fn unknown(alloc: Global, setting: &Setting, place: u64, fault: &mut Fault) -> Result<(), Memory> {
    let word = setting.source.word_at(place);
    match setting.reader {
        Reader::Program => undeclared(alloc, setting, word, fault),
        _ => if setting.source.word_before(place, 1) == "at" {
            no_label(alloc, setting, word, fault)
        } else {
            no_variable(alloc, setting, place, fault)
        },
    }
}

/// The first of two of the same name: of steps the step's name, else the first token.
fn first_of(alloc: Global, setting: &Setting, word: &str) -> Result<Option<Span>, Memory> {
    if let Reader::Proof(_) = setting.reader {
        let steps = steps(alloc, setting.source)?;
        return Ok(
            steps
                .iter()
                .find(|token| word_of(token) == word)
                .map(Span::of),
        );
    }
    Ok(
        setting
            .source
            .tokens
            .iter()
            .find(|token| word_of(token) == word)
            .map(Span::of),
    )
}

fn twice(alloc: Global, setting: &Setting, place: u64, fault: &mut Fault) -> Result<(), Memory> {
    let word = setting.source.word_at(place);
    if let Some(first) = first_of(alloc, setting, word)? {
        if first.from < place {
            fault.sentence = match setting.reader {
                Reader::Program => format!(in alloc; "`{word}` is declared twice")?,
                Reader::Proof(_) => format!(in alloc; "two steps are called `{word}`")?,
                Reader::Schedule(_) => format!(in alloc; "`{word}` is set twice")?,
            };
            fault
                .spots
                .push(setting.source.spot(alloc, first, "the first")?)?;
        }
    }
    Ok(())
}

/// The help for a number that is compared with nothing.
fn no_comparison(
    alloc: Global,
    setting: &Setting,
    place: u64,
    fault: &mut Fault,
) -> Result<(), Memory> {
    let source = setting.source;
    if let Some(span) = remainder_in_sum(source, place) {
        return remainder(alloc, setting, span, fault);
    }
    if source.word(source.index_at(place).saturating_add(1)) == ":=" {
        return helped(alloc, fault, COMPARED);
    }
    let help = format!(in alloc; "write a comparison, as `{} = 1`", source.word_at(place))?;
    helped(alloc, fault, &help)
}

/// What a variable of the wrong type is, and what is wanted.
fn wrong_variable(
    alloc: Global,
    setting: &Setting,
    place: u64,
    fault: &mut Fault,
) -> Result<(), Memory> {
    let source = setting.source;
    let word = source.word_at(place);
    match is_boolean(setting.program, word) {
        Some(true) => {
            fault.sentence = format!(in alloc;
                "`{word}` is a truth value, and a number is wanted"
            )?;
            match source.word(source.index_at(place).saturating_add(1)) {
                "=" | "!=" => Ok(()),
                _ => helped(
                    alloc,
                    fault,
                    "a truth value is no number: take an `integer` variable",
                ),
            }
        }
        Some(false) => {
            fault.sentence = format!(in alloc;
                "`{word}` is a number, and a truth value is wanted"
            )?;
            no_comparison(alloc, setting, place, fault)
        }
        None => wrong_list(alloc, setting, place, fault),
    }
}

/// A list of values that isn't as long as that of its targets.
fn wrong_list(
    alloc: Global,
    setting: &Setting,
    place: u64,
    fault: &mut Fault,
) -> Result<(), Memory> {
    if setting.source.word_at(place) == "(" && setting.source.word_before(place, 1) == ":=" {
        fault.sentence = String::from_str(
            alloc,
            "the lists have different lengths, or a value has the wrong type",
        )?;
        return helped(
            alloc,
            fault,
            "each variable on the left gets one value of its type",
        );
    }
    Ok(())
}

/// A formula of the wrong type; perhaps a sign of another language cuts it short.
fn wrong_type(
    alloc: Global,
    setting: &Setting,
    place: u64,
    fault: &mut Fault,
) -> Result<(), Memory> {
    wrong_variable(alloc, setting, place, fault)?;
    let source = setting.source;
    let Some(broken) = broken_at(source.file.text) else {
        return Ok(());
    };
    let index = source.index_at(place);
    let apart = source
        .tokens
        .iter()
        .skip(index)
        .take_while(|token| token.text != b";".as_slice())
        .count();
    if broken < place || index.saturating_add(apart) < source.tokens.len() {
        return Ok(());
    }
    let span = source.span_at(broken);
    fault.spots.push(source.spot(alloc, span, "the formula ends in front of this character")?)?;
    bad_byte(alloc, setting, broken, fault)
}

fn unknown_lemma(
    alloc: Global,
    setting: &Setting,
    place: u64,
    fault: &mut Fault,
) -> Result<(), Memory> {
    let word = setting.source.word_at(place);
    let steps = steps(alloc, setting.source)?;
    let mut earlier = Vec::new(alloc);
    for step in &steps {
        if step.start < place {
            earlier.push(word_of(step))?;
        }
    }
    let own = earlier.pop();
    if own == Some(word) {
        fault.sentence = format!(in alloc; "the step `{word}` can't cite itself")?;
        return Ok(());
    }
    if let Some(later) = steps.iter().find(|step| word_of(step) == word) {
        fault.sentence = format!(in alloc; "the step `{word}` comes later")?;
        fault
            .spots
            .push(setting.source.spot(alloc, Span::of(later), "here")?)?;
        return helped(
            alloc,
            fault,
            "only earlier steps can be cited: move it to the front",
        );
    }
    fault.sentence = format!(in alloc; "no earlier step is called `{word}`")?;
    near_help(alloc, fault, nearest(alloc, word, &earlier)?)
}

fn unknown_transition(
    alloc: Global,
    setting: &Setting,
    place: u64,
    fault: &mut Fault,
) -> Result<(), Memory> {
    let (sentence, help) = transition_words(alloc, setting.program, setting.source.word_at(place))?;
    fault.sentence = sentence;
    match help {
        Some(help) => helped(alloc, fault, &help),
        None => Ok(()),
    }
}

/// What a limit counts.
fn counted(kind: LimitKind) -> &'static str {
    match kind {
        LimitKind::Text => "bytes of a text",
        LimitKind::Certificates => "bytes of certificates",
        LimitKind::Variables => "variables of a program",
        LimitKind::Processes => "processes of a program",
        LimitKind::Statements => "statements of a program",
        LimitKind::Nesting => "levels of nesting",
        LimitKind::Nodes => "nodes, items or levels of a step",
        LimitKind::Conditions => "conditions of a proof",
        LimitKind::Atoms => "atoms of a condition or of a group's test",
        LimitKind::Weight => "atoms and entries of all conditions, or of all groups",
        LimitKind::Paths => "paths through a group",
    }
}

fn limit(alloc: Global, kind: LimitKind, fault: &mut Fault) -> Result<(), Memory> {
    let (most, counted) = (most(kind), counted(kind));
    fault.sentence = format!(in alloc; "more than {most} {counted}, the limit")?;
    Ok(())
}

/// A refusal as a fault. `before` is what was read in front of it.
pub(crate) fn described(
    alloc: Global,
    setting: &Setting,
    before: &[u8],
    refusal: Refusal,
) -> Result<Fault, Memory>
    ensures { IfOk result (λ f. first_spot f.spots.items ≡ Some refusal.place) }
{
    let mut fault = plain(alloc, setting, refusal.kind)?;
    let place = refusal.place;
    match refusal.kind {
        Kind::Syntax => syntax(alloc, setting, before, place, &mut fault)?,
        Kind::BadByte => bad_byte(alloc, setting, place, &mut fault)?,
        Kind::Unknown => unknown(alloc, setting, place, &mut fault)?,
        Kind::Twice => twice(alloc, setting, place, &mut fault)?,
        Kind::WrongType => wrong_type(alloc, setting, place, &mut fault)?,
        Kind::UnknownLemma => unknown_lemma(alloc, setting, place, &mut fault)?,
        Kind::UnknownTransition => unknown_transition(alloc, setting, place, &mut fault)?,
        Kind::Limit(kind) => limit(alloc, kind, &mut fault)?,
        _ => {}
    }
    let source = setting.source;
    fault
        .spots
        .insert(0, source.spot(alloc, source.span_at(place), "")?)?;
    Ok(fault)
}

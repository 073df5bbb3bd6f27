//! Certificates of version 3: those that are given are checked by number, or unfolded, and those that are asked for are written.

use crate::answering::tell_unread;
use crate::given::{Given, GivenText, read_certificates};
use crate::streams::{write_remark, write_result};
use crate::trouble::Trouble;
use certificate_versions::{Unfit, Unread, is_version_3, shared_text, unfolded};
use milkhour_run::{Answer, Question, Status, Texts};
use milkhour_words::{Options, Rewriting};
use source_lines::Lines;
use st_memory::Memory;
use std::alloc::Global;
use std::rt::Runtime;
use table_answers::checked;
use tree_texts::proved;

/// So many bytes of certificates are taken.
const MOST_BYTES: usize = 268_435_456;

/// What `step` says of certificates that are longer than it takes.
const LIMIT: &str = "limit: Certificates 268435456\n";

/// Why certificates aren't written in another version: the place, where there is one, and the reason.
#[derive(Drop)]
struct Reason {
    place: Option<u64>,
    words: String,
    status: Status,
}

/// Why certificates of version 3 aren't unfolded, as it is told.
#[derive(Drop)]
pub struct Unfolding {
    remark: String,
    is_long: bool,
}

/// What comes of certificates that are given: where they are of version 3 and each condition has its tree, the answer; else, where they
/// aren't unfolded, why.
#[derive(Drop)]
pub struct Taken {
    pub proved: Option<Answer>,
    pub unfolding: Option<Unfolding>,
}

impl Taken {
    /// There are none, or they are handed on as they are.
    pub fn as_given() -> Taken {
        Taken {
            proved: None,
            unfolding: None,
        }
    }
}

fn reason_of(
    alloc: Global,
    place: Option<u64>,
    words: &str,
    status: Status,
) -> Result<Reason, Trouble> {
    Ok(Reason {
        place,
        words: String::from_str(alloc, words)?,
        status,
    })
}

fn words_of_line(fault: Unfit) -> &'static str {
    match fault {
        Unfit::Malformed(0) => "the first line isn't `version 3`",
        Unfit::Malformed(_) => "no such line of certificates may stand here",
        _ => "a number, a leaf or a tree of this line is over a limit",
    }
}

/// Why a text of version 3 isn't unfolded.
fn unfit_reason(alloc: Global, fault: Unfit) -> Result<Reason, Trouble> {
    let refused = Status::NotProved(1);
    match fault {
        Unfit::Malformed(place) | Unfit::Limit(place) => {
            reason_of(alloc, Some(place as u64), words_of_line(fault), refused)
        }
        Unfit::Large(index) => Ok(Reason {
            place: None,
            words: format!(in alloc;
                "certificate {} has more than 100000 trees",
                index.saturating_add(1)
            )?,
            status: refused,
        }),
        Unfit::Long => {
            let words = "in version 2 the text has more than 268435456 bytes";
            reason_of(alloc, None, words, Status::Limit)
        }
        Unfit::Memory => Err(Trouble::Memory),
    }
}

/// Why a text of another version isn't read.
fn unread_reason(alloc: Global, fault: Unread) -> Result<Reason, Trouble> {
    let refused = Status::NotProved(1);
    match fault {
        Unread::Malformed(place) => {
            reason_of(alloc, Some(place), "no certificate goes on so", refused)
        }
        Unread::Limit(place) => { reason_of(alloc, Some(place), "this is over a limit", refused) }
        Unread::Deep => reason_of(alloc, None, "a tree has more than 400 levels", refused),
        Unread::Memory => Err(Trouble::Memory),
    }
}

/// A reason in one line, with the file, and the line and column where there is a place.
fn told(alloc: Global, name: &str, text: &[u8], reason: &Reason) -> Result<String, Trouble> {
    let words = reason.words.as_str();
    match reason.place {
        Some(place) => {
            let at = Lines::new(alloc, text)?.position(place);
            Ok(format!(in alloc; "{name}:{}:{}: error: {words}\n", at.line, at.column)?)
        }
        None => Ok(format!(in alloc; "{name}: error: {words}\n")?),
    }
}

/// Puts the text of version 2 in the place of one of version 3, or answers why there is none.
fn unfold(alloc: Global, text: &mut GivenText<'_>) -> Result<Option<Unfolding>, Trouble> {
    let Some(bytes) = text.bytes() else {
        return Ok(None);
    };
    match unfolded(alloc, bytes) {
        Ok(second) => {
            text.bytes = Ok(second);
            Ok(None)
        }
        Err(fault) => {
            let reason = unfit_reason(alloc, fault)?;
            Ok(Some(Unfolding {
                remark: told(alloc, text.name, bytes, &reason)?,
                is_long: fault == Unfit::Long,
            }))
        }
    }
}

/// Whether a text of certificates that was read is one of version 3.
fn is_shared(alloc: Global, text: &GivenText<'_>) -> Result<bool, Trouble> {
    match text.bytes() {
        Some(bytes) => Ok(bytes.len() <= MOST_BYTES && is_version_3(alloc, bytes)?),
        None => Ok(false),
    }
}

/// Checks certificates of version 3 by number. Where that doesn't show each condition, the text of version 2 is put in their place, for
/// `step` to say what is wrong.
pub fn take(
    alloc: Global,
    program: Option<&[u8]>,
    proof: Option<&[u8]>,
    text: &mut GivenText<'_>,
) -> Result<Taken, Trouble> {
    if !is_shared(alloc, text)? {
        return Ok(Taken::as_given());
    }
    let texts = Texts {
        program,
        proof,
        third: text.bytes(),
    };
    if let Some(answer) = checked(alloc, &texts)? {
        return Ok(Taken {
            proved: Some(answer),
            unfolding: None,
        });
    }
    Ok(Taken {
        proved: None,
        unfolding: unfold(alloc, text)?,
    })
}

/// Whether the program and the proof were read and are within their limits, so that certificates are looked at.
pub fn asks_for_certificates(status: Status) -> bool {
    matches!(
        status,
        Status::Proved | Status::NotProved(_) | Status::TrailingCerts
    )
}

/// Says why certificates of version 3 weren't unfolded.
pub fn tell_unfolding<R: Runtime + AllocGlobal>(rt: &R, given: &Given<'_>) -> Result<(), Trouble> {
    match &given.unfolding {
        Some(unfolding) => write_remark(rt, unfolding.remark.as_str()),
        None => Ok(()),
    }
}

fn is_too_long(given: &Given<'_>, status: Status) -> bool {
    match &given.unfolding {
        Some(unfolding) => unfolding.is_long && asks_for_certificates(status),
        None => false,
    }
}

/// The answer with its certificates in the version that is asked for; a limit, where those that were given are too long in version 2.
pub fn in_version(
    alloc: Global,
    question: Question,
    given: &Given<'_>,
    options: &Options<'_>,
    found: Answer,
) -> Result<Answer, Trouble> {
    if is_too_long(given, found.status) {
        return Ok(Answer {
            status: Status::Limit,
            text: Vec::from_slice(alloc, LIMIT.as_bytes())?,
        });
    }
    if !options.shared || question != Question::Prove || found.status != Status::Proved {
        return Ok(found);
    }
    match shared_text(alloc, found.text.as_slice()) {
        Ok(text) => Ok(Answer {
            status: Status::Proved,
            text,
        }),
        // What `prove` writes is read, and no tree of it has more than 400 levels.
        Err(_) => Err(Trouble::Memory),
    }
}

/// Certificates of version 3 of a large program, where they are asked for and found: they may have no text of version 2.
pub fn large_certificates(
    alloc: Global,
    question: Question,
    given: &Given<'_>,
    options: &Options<'_>,
) -> Result<Option<Answer>, Memory> {
    if !options.shared || question != Question::Prove {
        return Ok(None);
    }
    proved(alloc, &given.texts())
}

/// The text of version 3 of certificates that are of another version, or why there is none.
fn as_shared(alloc: Global, text: &[u8]) -> Result<Result<Vec<u8>, Reason>, Trouble> {
    match shared_text(alloc, text) {
        Ok(shared) => Ok(Ok(shared)),
        Err(fault) => Ok(Err(unread_reason(alloc, fault)?)),
    }
}

/// The text of version 2 of certificates of version 3, or why there is none.
fn as_unfolded(alloc: Global, text: &[u8]) -> Result<Result<Vec<u8>, Reason>, Trouble> {
    match unfolded(alloc, text) {
        Ok(second) => Ok(Ok(second)),
        Err(fault) => Ok(Err(unfit_reason(alloc, fault)?)),
    }
}

/// A reason that speaks of another text than the one that was given.
fn placeless(written: Result<Vec<u8>, Reason>) -> Result<Vec<u8>, Reason> {
    match written {
        Ok(text) => Ok(text),
        Err(reason) => Err(Reason {
            place: None,
            words: reason.words,
            status: reason.status,
        }),
    }
}

/// Certificates in a version, or why they aren't written in it. Those that are of this version are spelled anew.
fn rewritten(alloc: Global, text: &[u8], shared: bool) -> Result<Result<Vec<u8>, Reason>, Trouble> {
    if text.len() > MOST_BYTES {
        let words = "the text has more than 268435456 bytes";
        return Ok(Err(reason_of(alloc, None, words, Status::Limit)?));
    }
    let is_third = is_version_3(alloc, text)?;
    let other = if is_third {
        as_unfolded(alloc, text)?
    } else {
        as_shared(alloc, text)?
    };
    match other {
        Ok(other) if is_third && shared => Ok(placeless(as_shared(alloc, other.as_slice())?)),
        Ok(other) if !is_third && !shared => Ok(placeless(as_unfolded(alloc, other.as_slice())?)),
        given => Ok(given),
    }
}

/// Writes certificates in another version, and answers the status.
pub fn rewrite<R: Runtime + AllocGlobal>(rt: &R, rewriting: &Rewriting<'_>) -> Result<u8, Trouble> {
    let text = read_certificates(rt, rewriting.file);
    let Some(bytes) = text.bytes() else {
        tell_unread(rt, &text)?;
        return Ok(Status::ReadFault.number());
    };
    match rewritten(rt.alloc(), bytes, rewriting.shared)? {
        Ok(written) => {
            write_result(rt, rewriting.output, written.as_slice())?;
            Ok(Status::Proved.number())
        }
        Err(reason) => {
            let remark = told(rt.alloc(), text.name, bytes, &reason)?;
            write_remark(rt, remark.as_str())?;
            Ok(reason.status.number())
        }
    }
}

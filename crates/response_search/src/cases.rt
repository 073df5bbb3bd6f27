//! The text of an item that has several cases: what all have in common is said once, in front of the others or behind them.

use st_memory::Memory;
use std::alloc::Global;

/// What stands between the parts of a case.
const AND: &[u8] = b" /\\ ";

const OR: &[u8] = b" \\/ ";

/// What a case says behind a text that it begins with, if it does and says more.
pub(crate) fn rest_behind<'c>(case: &'c [u8], text: &[u8]) -> Option<&'c [u8]> {
    if !case.starts_with(text) {
        return None;
    }
    match case.get(text.len()..) {
        Some(rest) if rest.starts_with(AND) => rest.get(AND.len()..),
        _ => None,
    }
}

/// The place of the first conjunction in a case.
fn first_and(case: &[u8]) -> Option<usize> {
    case.windows(AND.len()).position(|window| window == AND)
}

/// The two sides of a case's first conjunction, its end alone where there is none.
fn sides(case: &[u8]) -> (&[u8], &[u8]) {
    match first_and(case) {
        Some(place) => (
            case.get(..place).unwrap_or(b"".as_slice()),
            case.get(place.saturating_add(AND.len())..)
                .unwrap_or(b"".as_slice()),
        ),
        None => (b"".as_slice(), case),
    }
}

/// Appends a text, behind a disjunction unless it is the first.
fn push_part(part: &[u8], number: usize, out: &mut Vec<u8>) -> Result<(), Memory> {
    if number > 0 {
        out.extend_from_slice(OR)?;
    }
    out.extend_from_slice(part)?;
    Ok(())
}

/// Whether all cases begin with a text, and say more.
fn all_behind(cases: &[Vec<u8>], base: &[u8]) -> bool {
    cases.iter().all(|case| rest_behind(case, base).is_some())
}

/// Whether all cases have something in front of this end.
fn all_before(cases: &[Vec<u8>], end: &[u8]) -> bool {
    cases.iter().all(|case| {
        let (front, rest) = sides(case);
        !front.is_empty() && rest == end
    })
}

/// Cases that begin with the same text: this, and then what they say behind it.
fn text_behind(alloc: Global, base: &[u8], cases: &[Vec<u8>]) -> Result<Vec<u8>, Memory> {
    let mut out = Vec::from_slice(alloc, base)?;
    out.extend_from_slice(b" /\\ (")?;
    for (number, case) in cases.iter().enumerate() {
        let rest = rest_behind(case, base).unwrap_or(b"".as_slice());
        push_part(rest, number, &mut out)?;
    }
    out.extend_from_slice(b")")?;
    Ok(out)
}

/// Cases with the same end: what they say in front of it, and then this.
fn text_before(alloc: Global, cases: &[Vec<u8>], end: &[u8]) -> Result<Vec<u8>, Memory> {
    let mut out = Vec::from_slice(alloc, b"(")?;
    for (number, case) in cases.iter().enumerate() {
        let (front, _) = sides(case);
        push_part(front, number, &mut out)?;
    }
    out.extend_from_slice(b") /\\ ")?;
    out.extend_from_slice(end)?;
    Ok(out)
}

/// Cases that have nothing in common.
fn text_apart(alloc: Global, cases: &[Vec<u8>]) -> Result<Vec<u8>, Memory> {
    let mut out = Vec::new(alloc);
    for (number, case) in cases.iter().enumerate() {
        push_part(b"(", number, &mut out)?;
        out.extend_from_slice(case)?;
        out.extend_from_slice(b")")?;
    }
    Ok(out)
}

/// One of some cases; the base is what the first of them says of places.
pub(crate) fn joined_text(
    alloc: Global,
    base: &[u8],
    cases: &[Vec<u8>],
) -> Result<Vec<u8>, Memory> {
    let Some(first) = cases.first() else {
        return Ok(Vec::from_slice(alloc, base)?);
    };
    let (_, end) = sides(first);
    if cases.len() == 1 {
        Ok(Vec::from_slice(alloc, first)?)
    } else if all_behind(cases, base) {
        text_behind(alloc, base, cases)
    } else if all_before(cases, end) {
        text_before(alloc, cases, end)
    } else {
        text_apart(alloc, cases)
    }
}

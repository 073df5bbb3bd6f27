//! `fmt`: a program or a proof laid out.

use crate::answering::tell_unread;
use crate::given::{GivenText, read_text};
use crate::streams::{write_remark, write_result};
use crate::trouble::Trouble;
use milkhour_run::Status;
use milkhour_words::Layout;
use source_lines::Lines;
use std::rt::Runtime;
use text_layouts::{LayoutFault, TokenFault, laid_out};

fn place_of(fault: TokenFault) -> u64 {
    match fault {
        TokenFault::BadByte(place) => place,
        TokenFault::LongNumber(place) => place,
    }
}

fn words_of(fault: TokenFault) -> &'static str {
    match fault {
        TokenFault::BadByte(_) => "no token begins here",
        TokenFault::LongNumber(_) => "the number is past 2^30",
    }
}

/// Says where no token stands.
fn tell_fault<R: Runtime + AllocGlobal>(
    rt: &R,
    text: &GivenText<'_>,
    bytes: &[u8],
    fault: TokenFault,
) -> Result<u8, Trouble> {
    let at = Lines::new(rt.alloc(), bytes)?.position(place_of(fault));
    let remark = format!(in rt.alloc();
        "{}:{}:{}: error: {}\n",
        text.name,
        at.line,
        at.column,
        words_of(fault)
    )?;
    write_remark(rt, remark.as_str())?;
    Ok(Status::ProgramRefused.number())
}

/// Writes what was laid out; or, where it is only to be seen, says by the status whether it is as the text was.
fn give<R: Runtime + AllocGlobal>(
    rt: &R,
    layout: &Layout<'_>,
    bytes: &[u8],
    laid: &[u8],
) -> Result<u8, Trouble> {
    if layout.check {
        return Ok((laid != bytes) as u8);
    }
    write_result(rt, layout.output, laid)?;
    Ok(Status::Proved.number())
}

/// Lays out a text, and answers the status.
pub fn lay_out<R: Runtime + AllocGlobal>(rt: &R, layout: &Layout<'_>) -> Result<u8, Trouble> {
    let text = read_text(rt, layout.file);
    let Some(bytes) = text.bytes() else {
        tell_unread(rt, &text)?;
        return Ok(Status::ReadFault.number());
    };
    match laid_out(rt.alloc(), bytes) {
        Ok(laid) => give(rt, layout, bytes, laid.as_slice()),
        Err(LayoutFault::Token(fault)) => tell_fault(rt, &text, bytes, fault),
        Err(LayoutFault::Memory) => Err(Trouble::Memory),
    }
}

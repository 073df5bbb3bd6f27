//! How what was found is told: the text of a proof as a result, a run that refutes a goal on standard output, and that nothing was
//! found on standard error.

use super::pages::page_of;
use super::reporting::{FindReport, Verdict};
use crate::given::Given;
use crate::reports::document;
use crate::streams::{Streams, Target, style_of, write_remark, write_result};
use crate::trouble::Trouble;
use milkhour_words::{Format, Options};
use screens::{Style, run_screen};
use st_memory::Memory;
use std::alloc::{AllocError, Global};
use std::rt::Runtime;

/// Appends a part behind its head, on a line of its own.
fn push_part(out: &mut String, head: &str, part: &Option<String>) -> Result<(), AllocError> {
    if let Some(part) = part {
        out.push_str(head)?;
        out.push_str(part)?;
        if !part.ends_with('\n') {
            out.push_str("\n")?;
        }
    }
    Ok(())
}

/// The run on which a goal fails, and its schedule.
fn false_text(alloc: Global, report: &FindReport, style: Style) -> Result<String, Memory> {
    let mut out = String::new(alloc);
    push_part(&mut out, "false: ", &report.goal)?;
    if let Some(run) = &report.run {
        out.push_str(run_screen(alloc, run, style)?.as_str())?;
    }
    push_part(
        &mut out,
        "its schedule, for `milkhour trace`:\n",
        &report.schedule,
    )?;
    Ok(out)
}

fn unfound_text(alloc: Global, report: &FindReport) -> Result<String, AllocError> {
    let mut out = String::new(alloc);
    match &report.goal {
        Some(goal) => {
            let line = format!(in alloc;
                "not found: a proof of `{goal}`, and no run on which it fails\n"
            )?;
            out.push_str(line.as_str())?;
        }
        None => out.push_str("not found: a proof\n")?,
    }
    push_part(&mut out, "  ", &report.reason)?;
    push_part(&mut out, "  left to be excluded: ", &report.left)?;
    Ok(out)
}

/// Writes the text of a proof, and where it went if that isn't seen.
fn tell_proof<R: Runtime + AllocGlobal>(
    rt: &R,
    output: Option<&str>,
    proof: &[u8],
) -> Result<(), Trouble> {
    write_result(rt, output, proof)?;
    match output {
        Some(name) => {
            let line = format!(in rt.alloc(); "proved: each claim, by the text in {name}\n")?;
            write_remark(rt, line.as_str())
        }
        None => Ok(()),
    }
}

/// Tells what was found as a text: a proof, a run, or why there is neither.
fn tell_text<R: Runtime + AllocGlobal>(
    rt: &R,
    streams: Streams,
    options: &Options<'_>,
    report: &FindReport,
) -> Result<(), Trouble> {
    let alloc = rt.alloc();
    match report.verdict {
        Verdict::Proved => tell_proof(rt, options.output, report.file.as_slice()),
        Verdict::False => {
            let style = style_of(rt, streams, Target::Result(None), options.colour);
            write_result(rt, None, false_text(alloc, report, style)?.as_bytes())
        }
        Verdict::NotFound => write_remark(rt, unfound_text(alloc, report)?.as_str()),
    }
}

/// Tells what was found.
pub fn tell<R: Runtime + AllocGlobal>(
    rt: &R,
    streams: Streams,
    given: &Given<'_>,
    options: &Options<'_>,
    report: &FindReport,
) -> Result<(), Trouble> {
    let alloc = rt.alloc();
    let whole = match options.format {
        Format::Json => document(alloc, report)?,
        Format::Html => {
            let said = unfound_text(alloc, report)?;
            page_of(alloc, given, report, said.as_str())?
        }
        Format::Text | Format::Plain => return tell_text(rt, streams, options, report),
    };
    write_result(rt, options.output, whole.as_slice())
}

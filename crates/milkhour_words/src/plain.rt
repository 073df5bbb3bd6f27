//! Words that are read without clap, which takes half as long to read any as a short proof takes to be answered.

use crate::meant::question_named;
use crate::reading::{file_names, task_named};
use crate::request::{Format, Options, Request, Work};
use std::alloc::{AllocError, Global};

/// Whether a word is no option, and no name of standard input.
fn is_plain_name(word: &String) -> bool {
    match word.as_bytes().first() {
        Some(first) => *first != b'-',
        None => false,
    }
}

/// The forms that `--format` names for what `step` answers too.
fn plain_format(name: &str) -> Option<Format> {
    match name {
        "text" => Some(Format::Text),
        "plain" => Some(Format::Plain),
        "json" => Some(Format::Json),
        "html" => Some(Format::Html),
        _ => None,
    }
}

/// The files and the form of words behind a question that are no more than that, the files in one row; else none, for clap to read them.
fn plain_words<'a>(
    alloc: Global,
    words: &'a [String],
) -> Result<Option<(Vec<&'a str>, Format)>, AllocError> {
    let mut files = Vec::new(alloc);
    let mut format = None;
    let mut is_form = false;
    let mut has_row = false;
    for word in words {
        if is_form {
            format = plain_format(word.as_str());
            if format.is_none() {
                return Ok(None);
            }
            is_form = false;
        } else if !has_row && is_plain_name(word) {
            files.push(word.as_str())?;
        } else if word.as_str() == "--format" && format.is_none() {
            is_form = true;
            has_row = !files.is_empty();
        } else {
            return Ok(None);
        }
    }
    if is_form {
        return Ok(None);
    }
    Ok(Some((files, format.unwrap_or(Format::Text))))
}

/// The request of words that need no table: what `step` answers too, with no option but the form.
pub(crate) fn plain_request<'a>(
    alloc: Global,
    words: &'a [String],
) -> Result<Option<Request<'a>>, AllocError> {
    let [_, command, rest @ ..] = words else {
        return Ok(None);
    };
    let (Some(row), Some(task)) = (
        question_named(command.as_str()),
        task_named(command.as_str()),
    ) else {
        return Ok(None);
    };
    let Some((names, format)) = plain_words(alloc, rest)? else {
        return Ok(None);
    };
    if names.len() < row.files.least || row.files.most < names.len() {
        return Ok(None);
    }
    let Some(files) = file_names(task, names.as_slice(), None) else {
        return Ok(None);
    };
    let mut options = Options::unsaid();
    options.format = format;
    Ok(Some(Request::Work(Work {
        task,
        files,
        options,
    })))
}

//! The texts that a request names, each read once and before anything is done with them.

use crate::trouble::Trouble;
use crate::versions::{Taken, Unfolding, take};
use host_outside::{file_text, input_text};
use milkhour_run::{Answer, Texts};
use milkhour_words::{FileNames, Task};
use source_parts::parted;
use std::alloc::Global;
use std::io;
use std::rt::{Files, Runtime};

/// The name that stands for standard input.
pub const INPUT: &str = "-";

/// One byte more than a program, a proof or a schedule may have, so that a longer one is seen to be longer.
const MOST_OF_TEXT: u64 = (1 << 22) + 1;

/// Likewise for certificates.
const MOST_OF_CERTIFICATES: u64 = (1 << 28) + 1;

/// A text that was read, or why it couldn't be, and the name by which it is spoken of.
#[derive(Drop)]
pub struct GivenText<'a> {
    pub name: &'a str,
    pub bytes: io::Result<Vec<u8>>,
}

impl GivenText<'_> {
    pub fn bytes(&self) -> Option<&[u8]> {
        match &self.bytes {
            Ok(bytes) => Some(bytes.as_slice()),
            Err(_) => None,
        }
    }
}

/// The texts of a request. Where program and proof stand in one file, the proof has blanks for the program, so that
/// its places are those of the file.
#[derive(Drop)]
pub struct Given<'a> {
    /// What is done with them.
    pub task: Task,
    /// Whether the program and the proof stand in one file.
    pub is_one_file: bool,
    pub program: GivenText<'a>,
    pub proof: Option<GivenText<'a>>,
    pub third: Option<GivenText<'a>>,
    /// The answer to certificates of version 3, where each condition has its tree.
    pub proved: Option<Answer>,
    /// Else, why they aren't unfolded; where they are, their text of version 2 stands in their place.
    pub unfolding: Option<Unfolding>,
    /// What a page shows beside the texts.
    pub drawing: Option<GivenText<'a>>,
}

fn bytes_of<'b>(text: &'b Option<GivenText<'_>>) -> Option<&'b [u8]> {
    match text {
        Some(text) => text.bytes(),
        None => None,
    }
}

impl Given<'_> {
    /// The texts that could be read.
    pub fn texts(&self) -> Texts<'_> {
        Texts {
            program: self.program.bytes(),
            proof: bytes_of(&self.proof),
            third: bytes_of(&self.third),
        }
    }

    /// The program, where it stands in front of the proof in one file.
    pub fn front(&self) -> Option<&[u8]> {
        if self.is_one_file {
            self.program.bytes()
        } else {
            None
        }
    }

    /// The drawing that a page shows.
    pub fn drawing(&self) -> Option<&[u8]> {
        bytes_of(&self.drawing)
    }

    pub fn third_name(&self) -> &str {
        match &self.third {
            Some(third) => third.name,
            None => self.program.name,
        }
    }

    pub fn proof_name(&self) -> &str {
        match &self.proof {
            Some(proof) => proof.name,
            None => self.program.name,
        }
    }
}

/// A text of a program, a proof or a schedule.
pub fn read_text<'a, R: Runtime + AllocGlobal>(rt: &R, name: &'a str) -> GivenText<'a> {
    read_most(rt, name, MOST_OF_TEXT)
}

fn read_most<'a, R: Runtime + AllocGlobal>(rt: &R, name: &'a str, most: u64) -> GivenText<'a> {
    if name == INPUT {
        return GivenText {
            name: "<stdin>",
            bytes: input_text(rt.alloc(), rt.reader(), most),
        };
    }
    GivenText {
        name,
        bytes: file_text(rt, rt.alloc(), name, most),
    }
}

/// A text of certificates.
pub fn read_certificates<'a, R: Runtime + AllocGlobal>(rt: &R, name: &'a str) -> GivenText<'a> {
    read_most(rt, name, MOST_OF_CERTIFICATES)
}

fn is_input(name: Option<&str>) -> bool {
    name == Some(INPUT)
}

/// How many of the names stand for standard input.
fn inputs(files: &FileNames<'_>) -> u32 {
    let program = is_input(Some(files.program)) as u32;
    let proof = is_input(files.proof) as u32;
    let third = is_input(files.third) as u32;
    let drawing = is_input(files.drawing) as u32;
    program
        .saturating_add(proof)
        .saturating_add(third)
        .saturating_add(drawing)
}

fn most_of_third(task: Task) -> u64 {
    if task == Task::Check {
        MOST_OF_CERTIFICATES
    } else {
        MOST_OF_TEXT
    }
}

/// What the words ask for can't be done.
pub fn refusal(alloc: Global, text: &str) -> Trouble {
    match String::from_str(alloc, text) {
        Ok(text) => Trouble::Words(text),
        Err(_) => Trouble::Memory,
    }
}

/// Takes the proof out of the text that has both. Without a line `proof` the text is the program alone.
fn parting<'a>(
    alloc: Global,
    whole: GivenText<'a>,
) -> Result<(GivenText<'a>, Option<GivenText<'a>>), Trouble> {
    let name = whole.name;
    let Ok(text) = &whole.bytes else {
        return Ok((whole, None));
    };
    let Some(parts) = parted(alloc, text.as_slice())? else {
        return Ok((whole, None));
    };
    let program = Vec::from_slice(alloc, parts.program)?;
    let proof = GivenText {
        name,
        bytes: Ok(parts.proof),
    };
    let program = GivenText {
        name,
        bytes: Ok(program),
    };
    Ok((program, Some(proof)))
}

/// The drawing of a page, which has to be there.
fn read_drawing<'a, R: Runtime + AllocGlobal>(
    rt: &R,
    name: Option<&'a str>,
) -> Result<Option<GivenText<'a>>, Trouble> {
    let Some(name) = name else {
        return Ok(None);
    };
    let drawing = read_text(rt, name);
    match &drawing.bytes {
        Ok(_) => Ok(Some(drawing)),
        Err(error) => Err(Trouble::Reading(format!(in rt.alloc();
            "{name}: can't be read: {error}"
        )?)),
    }
}

/// Reads the texts that a task names.
pub fn read_files<'a, R: Runtime + AllocGlobal>(
    rt: &R,
    task: Task,
    files: &FileNames<'a>,
) -> Result<Given<'a>, Trouble> {
    let alloc = rt.alloc();
    if 1 < inputs(files) {
        return Err(refusal(
            alloc,
            "standard input is read once, so - can stand for one file alone",
        ));
    }
    let program = read_text(rt, files.program);
    let (program, proof) = match files.proof {
        Some(name) => (program, Some(read_text(rt, name))),
        None => parting(alloc, program)?,
    };
    let mut third = match files.third {
        Some(name) => Some(read_most(rt, name, most_of_third(task))),
        None => None,
    };
    let taken = match &mut third {
        Some(text) if task == Task::Check => take(alloc, program.bytes(), bytes_of(&proof), text)?,
        _ => Taken::as_given(),
    };
    Ok(Given {
        task,
        is_one_file: files.proof.is_none() && proof.is_some(),
        program,
        proof,
        third,
        proved: taken.proved,
        unfolding: taken.unfolding,
        drawing: read_drawing(rt, files.drawing)?,
    })
}

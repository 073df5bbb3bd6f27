//! What is said of a proof beside the answer: warnings, and the table of its steps for where all is proved. It rests on the texts alone,
//! so a thread of its own makes it over copies of them while the conditions are searched: whoever waits, waits for the longer of the two.

use crate::STACK;
use crate::given::Given;
use explanations::{Report, Texts, outline};
use fault_reports::{TextFile, uncited, warnings};
use milkhour_run::Question;
use milkhour_words::{Format, Options};
use proof_reports::Fault;
use st_memory::Memory;
use std::alloc::Global;
use std::rt::Runtime;
use std::thread::{Builder, JoinHandle, Threads};

/// What is said of a proof.
#[derive(Drop)]
pub struct Beside {
    /// The report of its steps, where all is proved and that is a report.
    pub outline: Option<Report>,
    /// The warnings on both texts, where they are read.
    pub warnings: Vec<Fault>,
}

/// A thread that finds out what is said.
pub type Saying = JoinHandle<Result<Beside, Memory>>;

impl Beside {
    pub fn nothing(alloc: Global) -> Beside {
        Beside {
            outline: None,
            warnings: Vec::new(alloc),
        }
    }
}

/// Both texts with their names, held by the thread that speaks of them.
#[derive(Drop)]
struct Subject {
    program_name: String,
    program: Vec<u8>,
    proof_name: String,
    proof: Vec<u8>,
    goals: Option<String>,
    is_outlined: bool,
}

impl Subject {
    fn warnings(&self, alloc: Global) -> Result<Vec<Fault>, Memory> {
        let program = TextFile {
            name: self.program_name.as_str(),
            text: self.program.as_slice(),
        };
        let proof = TextFile {
            name: self.proof_name.as_str(),
            text: self.proof.as_slice(),
        };
        let mut found = warnings(alloc, program, proof)?;
        if let Some(goals) = &self.goals {
            found.append(&mut uncited(alloc, program, proof, goals.as_str())?)?;
        }
        Ok(found)
    }

    fn outline(&self, alloc: Global) -> Result<Option<Report>, Memory> {
        if !self.is_outlined {
            return Ok(None);
        }
        let texts = Texts {
            program_name: self.program_name.as_str(),
            program: self.program.as_slice(),
            proof_name: self.proof_name.as_str(),
            proof: self.proof.as_slice(),
        };
        outline(alloc, &texts)
    }

    fn beside(&self, alloc: Global) -> Result<Beside, Memory> {
        Ok(Beside {
            outline: self.outline(alloc)?,
            warnings: self.warnings(alloc)?,
        })
    }
}

/// Whether a question is about the claims of a proof.
fn is_of_claims(question: Question) -> bool {
    matches!(
        question,
        Question::Verify | Question::Check | Question::Prove
    )
}

/// What is spoken of, where something is said.
fn subject_of(
    alloc: Global,
    question: Question,
    given: &Given<'_>,
    options: &Options<'_>,
) -> Result<Option<Subject>, Memory> {
    let texts = given.texts();
    let (Some(program), Some(proof)) = (texts.program, texts.proof) else {
        return Ok(None);
    };
    if options.format == Format::Plain || !is_of_claims(question) {
        return Ok(None);
    }
    let goals = match options.goals {
        Some(goals) => Some(String::from_str(alloc, goals)?),
        None => None,
    };
    Ok(Some(Subject {
        program_name: String::from_str(alloc, given.program.name)?,
        program: Vec::from_slice(alloc, program)?,
        proof_name: String::from_str(alloc, given.proof_name())?,
        proof: Vec::from_slice(alloc, proof)?,
        goals,
        is_outlined: question != Question::Prove,
    }))
}

/// Begins to find out what is said; `None` where that is nothing, or no thread can be had.
pub fn begin<R: Runtime + AllocGlobal + Threads>(
    rt: &R,
    question: Question,
    given: &Given<'_>,
    options: &Options<'_>,
) -> Result<Option<Saying>, Memory> {
    let alloc = rt.alloc();
    let Some(subject) = subject_of(alloc, question, given, options)? else {
        return Ok(None);
    };
    let work = move || -> Result<Beside, Memory> { subject.beside(alloc) };
    Ok(Builder::new().stack_size(STACK).spawn(rt, work).ok())
}

/// What is said, of texts whose conditions were decided. Where no thread was begun, it is found out here.
pub fn finish<R: Runtime + AllocGlobal + Threads>(
    rt: &R,
    begun: Option<Saying>,
    question: Question,
    given: &Given<'_>,
    options: &Options<'_>,
) -> Result<Beside, Memory> {
    if let Some(thread) = begun {
        return thread.join(rt);
    }
    match subject_of(rt.alloc(), question, given, options)? {
        Some(subject) => subject.beside(rt.alloc()),
        None => Ok(Beside::nothing(rt.alloc())),
    }
}

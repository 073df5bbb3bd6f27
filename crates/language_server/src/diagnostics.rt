//! What is wrong with a program and its proof, and what isn't proved.

use crate::places::range_of_spot;
use crate::protocol::{Diagnostic, Location, Related};
use crate::texts::{Pair, Source};
use explanations::{Texts, explain};
use fault_reports::{TextFile, faults_of_program, faults_of_proof, warnings};
use proof_reports::{Failure, Fault, Severity, Spot, StepReport};
use source_lines::Lines;
use st_memory::Memory;
use st_outside::OpenGate;
use std::alloc::Global;

/// The name under which all is told.
const SOURCE: &str = "milkhour";

/// How many open conditions are told at once.
const MOST_OPEN: usize = 20;

/// The texts with their lines, so that places in either can be told.
#[derive(Drop)]
pub struct Ground<'a> {
    pub program: &'a Source,
    pub proof: Option<&'a Source>,
    program_lines: Lines<'a>,
    proof_lines: Option<Lines<'a>>,
}

/// What is told of each of the two files. In a text with both, all of it is told of the program's file.
#[derive(Drop)]
pub struct Told {
    pub program: Vec<Diagnostic>,
    pub proof: Vec<Diagnostic>,
    /// What became of each step, where the conditions were decided.
    pub steps: Option<Vec<StepReport>>,
}

impl<'a> Ground<'a> {
    pub fn new(alloc: Global, pair: &'a Pair) -> Result<Ground<'a>, Memory> {
        let proof = pair.proof.as_ref();
        let proof_lines = match proof {
            Some(proof) => Some(Lines::new(alloc, proof.text.as_slice())?),
            None => None,
        };
        Ok(Ground {
            program: &pair.program,
            proof,
            program_lines: Lines::new(alloc, pair.program.text.as_slice())?,
            proof_lines,
        })
    }

    /// Whether a place is one of the proof's.
    fn is_of_proof(&self, spot: &Spot) -> bool {
        match self.proof {
            Some(proof) => proof.uri.as_str() == spot.file.as_str() && self.proof_lines.is_some(),
            None => false,
        }
    }

    fn lines_of(&self, spot: &Spot) -> &Lines<'a> {
        match &self.proof_lines {
            Some(lines) if self.is_of_proof(spot) => lines,
            _ => &self.program_lines,
        }
    }

    fn related(&self, alloc: Global, spot: &Spot) -> Result<Related, Memory> {
        Ok(Related {
            location: Location {
                uri: spot.file.clone()?,
                range: range_of_spot(self.lines_of(spot), spot),
            },
            message: String::from_str(alloc, spot.note.as_str())?,
        })
    }

    fn all_related(&self, alloc: Global, spots: &[Spot]) -> Result<Vec<Related>, Memory> {
        let mut out = Vec::new(alloc);
        for spot in spots {
            let related = self.related(alloc, spot)?;
            out.push(related)?;
        }
        Ok(out)
    }
}

fn severity_of(severity: Severity) -> u8 {
    match severity {
        Severity::Error => 1,
        Severity::Warning => 2,
    }
}

/// A sentence with the help behind it, a line for each.
fn message(alloc: Global, sentence: &str, help: &[String]) -> Result<String, Memory> {
    let mut out = String::from_str(alloc, sentence)?;
    for line in help {
        out.push_str("\nhelp: ")?;
        out.push_str(line.as_str())?;
    }
    Ok(out)
}

fn push_fault(
    alloc: Global,
    ground: &Ground<'_>,
    told: &mut Told,
    fault: &Fault,
) -> Result<(), Memory> {
    let [first, beside @ ..] = fault.spots.as_slice() else {
        return Ok(());
    };
    let diagnostic = Diagnostic {
        range: range_of_spot(ground.lines_of(first), first),
        severity: severity_of(fault.severity),
        code: fault.code.clone()?,
        source: SOURCE,
        message: message(alloc, fault.sentence.as_str(), fault.help.as_slice())?,
        related_information: ground.all_related(alloc, beside)?,
    };
    if ground.is_of_proof(first) {
        told.proof.push(diagnostic)?;
    } else {
        told.program.push(diagnostic)?;
    }
    Ok(())
}

/// What an open condition says, and how to go on.
fn failure_message(alloc: Global, failure: &Failure) -> Result<String, Memory> {
    let mut out = String::from_str(alloc, failure.title.as_str())?;
    out.push_str("\n")?;
    out.push_str(failure.words.as_str())?;
    for name in &failure.excluded_by {
        out.push_str("\nhelp: excluded by ")?;
        out.push_str(name.as_str())?;
        out.push_str(": cite it behind using")?;
    }
    if failure.excluded_by.is_empty() {
        out.push_str("\nhelp: milkhour find looks for the invariances that exclude this state")?;
    }
    Ok(out)
}

fn push_failure(
    alloc: Global,
    ground: &Ground<'_>,
    told: &mut Told,
    failure: &Failure,
) -> Result<(), Memory> {
    let [first, beside @ ..] = failure.spots.as_slice() else {
        return Ok(());
    };
    let diagnostic = Diagnostic {
        range: range_of_spot(ground.lines_of(first), first),
        severity: 2,
        code: failure.name.clone()?,
        source: SOURCE,
        message: failure_message(alloc, failure)?,
        related_information: ground.all_related(alloc, beside)?,
    };
    if ground.is_of_proof(first) {
        told.proof.push(diagnostic)?;
    } else {
        told.program.push(diagnostic)?;
    }
    Ok(())
}

fn file(source: &Source) -> TextFile<'_> {
    TextFile {
        name: source.uri.as_str(),
        text: source.text.as_slice(),
    }
}

fn faults(alloc: Global, pair: &Pair) -> Result<Vec<Fault>, Memory> {
    match &pair.proof {
        Some(proof) => faults_of_proof(alloc, file(&pair.program), file(proof)),
        None => faults_of_program(alloc, file(&pair.program)),
    }
}

/// What is accepted and yet says little.
fn push_warnings(alloc: Global, ground: &Ground<'_>, told: &mut Told) -> Result<(), Memory> {
    if let Some(proof) = ground.proof {
        for fault in &warnings(alloc, file(ground.program), file(proof))? {
            push_fault(alloc, ground, told, fault)?;
        }
    }
    Ok(())
}

/// The conditions that are open, and what became of each step; neither where a text is refused.
fn push_open(alloc: Global, ground: &Ground<'_>, told: &mut Told) -> Result<(), Memory> {
    let Some(proof) = ground.proof else {
        return Ok(());
    };
    let texts = Texts {
        program_name: ground.program.uri.as_str(),
        program: ground.program.text.as_slice(),
        proof_name: proof.uri.as_str(),
        proof: proof.text.as_slice(),
    };
    if let Some(report) = explain(alloc, &OpenGate, &texts, MOST_OPEN)? {
        for failure in &report.failures {
            push_failure(alloc, ground, told, failure)?;
        }
        told.steps = Some(report.steps);
    }
    Ok(())
}

/// What is wrong with the texts; and where nothing is and conditions are asked for, which of these are open.
pub fn tell(alloc: Global, pair: &Pair, conditions: bool) -> Result<Told, Memory> {
    let ground = Ground::new(alloc, pair)?;
    let mut told = Told {
        program: Vec::new(alloc),
        proof: Vec::new(alloc),
        steps: None,
    };
    let faults = faults(alloc, pair)?;
    for fault in &faults {
        push_fault(alloc, &ground, &mut told, fault)?;
    }
    if faults.is_empty() {
        push_warnings(alloc, &ground, &mut told)?;
        if conditions {
            push_open(alloc, &ground, &mut told)?;
        }
    }
    Ok(told)
}

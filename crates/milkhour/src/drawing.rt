//! `draw`: the control graph of a program and the diagrams of a proof, in the language of Graphviz.

ghost use Rattle.posed_conditions.specs.Translated.{IsTranslated};

use crate::given::Given;
use crate::streams::write_result;
use crate::trouble::Trouble;
use drawings::{DrawingFault, Graph, control_graph, dot, proof_graphs};
use milkhour_run::Status;
use milkhour_words::Options;
use posed_conditions::{PosedProof, PosingFault, pose, translate_text};
use std::alloc::Global;
use std::rt::Runtime;
use text_words::text_words;

/// The control graph of a program, and behind it the drawings of a proof.
fn graphs_of(alloc: Global, posed: &PosedProof, program: &[u8]) -> Result<Vec<Graph>, Trouble>
    requires { IsTranslated posed.now.source }
{
    let words = text_words(alloc, &posed.source, program)?;
    let mut graphs = Vec::new(alloc);
    graphs.push(control_graph(alloc, &posed.source, &words)?)?;
    match proof_graphs(alloc, posed, &words, None) {
        Ok(more) => {
            for graph in more {
                graphs.push(graph)?;
            }
            Ok(graphs)
        }
        Err(DrawingFault::NothingToDraw) => Ok(graphs),
        Err(_) => Err(Trouble::Memory),
    }
}

/// The drawings of both texts.
fn graphs_of_proof(
    alloc: Global,
    program: &[u8],
    proof: &[u8],
) -> Result<Option<Vec<Graph>>, Trouble> {
    match pose(alloc, program, proof) {
        Ok(posed) => Ok(Some(graphs_of(alloc, &posed, program)?)),
        Err(PosingFault::Memory) => Err(Trouble::Memory),
        Err(_) => Ok(None),
    }
}

/// The control graph of a program.
fn graphs_of_program(alloc: Global, program: &[u8]) -> Result<Option<Vec<Graph>>, Trouble> {
    let source = match translate_text(alloc, program) {
        Ok(source) => source,
        Err(PosingFault::Memory) => return Err(Trouble::Memory),
        Err(_) => return Ok(None),
    };
    let words = text_words(alloc, &source, program)?;
    let mut graphs = Vec::new(alloc);
    graphs.push(control_graph(alloc, &source, &words)?)?;
    Ok(Some(graphs))
}

/// The drawings of what is given. `None` where a text is refused, or couldn't be read.
fn drawn(alloc: Global, given: &Given<'_>) -> Result<Option<Vec<Graph>>, Trouble> {
    let held = given.texts();
    match (held.program, held.proof) {
        (Some(program), Some(proof)) => graphs_of_proof(alloc, program, proof),
        (Some(program), None) if given.proof.is_none() => graphs_of_program(alloc, program),
        _ => Ok(None),
    }
}

/// Writes the drawings. `None` where the texts are refused.
pub fn draw<R: Runtime + AllocGlobal>(
    rt: &R,
    given: &Given<'_>,
    options: &Options<'_>,
) -> Result<Option<u8>, Trouble> {
    let alloc = rt.alloc();
    match drawn(alloc, given)? {
        Some(graphs) => {
            let text = dot(alloc, graphs.as_slice())?;
            write_result(rt, options.output, text.as_bytes())?;
            Ok(Some(Status::Proved.number()))
        }
        None => Ok(None),
    }
}

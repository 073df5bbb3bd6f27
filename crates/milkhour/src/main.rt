//! `milkhour`, the prover as people meet it: words, files, streams, and what it says of the answers of `step`.
#![tactic(auto)]

mod answering;
mod beside;
mod drawing;
mod explaining;
mod facts;
mod finding;
mod given;
mod laying;
mod listing;
mod listing_moves;
mod reports;
mod serving;
mod stepping;
mod stepping_through;
mod streams;
mod titles;
mod trouble;
mod versions;
mod working;

use host_outside::given_words;
use milkhour_run::Status;
use milkhour_words::{Request, read_words};
use std::io::IsTerminal;
use std::process::ExitCode;
use std::rt::Runtime;
use std::thread::{Builder, Threads};
use streams::Streams;
use trouble::Trouble;

/// Bytes of stack, as many as `step` has.
const STACK: usize = 1 << 28;

/// Does what the words ask for, and answers the status.
fn run<R: Runtime + AllocGlobal + Threads + Sync>(rt: &R, streams: Streams) -> Result<u8, Trouble> {
    let words = given_words(rt)?;
    match read_words(rt.alloc(), words.as_slice()) {
        Ok(Request::Step) => Ok(stepping::step(rt, &words)),
        Ok(Request::Explain(word)) => explaining::explain(rt, word),
        Ok(Request::Layout(layout)) => laying::lay_out(rt, &layout),
        Ok(Request::Rewrite(rewriting)) => versions::rewrite(rt, &rewriting),
        Ok(Request::Serve) => serving::serve(rt),
        Ok(Request::Work(work)) => working::work(rt, streams, &work),
        Err(refusal) => streams::refuse_words(rt, &refusal),
    }
}

fn main(rt: HostRuntime) -> ExitCode {
    let streams = Streams {
        is_input_terminal: rt.stdin().is_terminal(),
        is_output_terminal: rt.stdout().is_terminal(),
        is_error_terminal: rt.stderr().is_terminal(),
    };
    let work = move || -> u8 {
        match run(&rt, streams) {
            Ok(status) => status,
            Err(trouble) => streams::tell_trouble(&rt, &trouble),
        }
    };
    match Builder::new().stack_size(STACK).spawn(&rt, work) {
        Ok(thread) => ExitCode::from(thread.join(&rt)),
        Err(_) => ExitCode::from(Status::Memory.number()),
    }
}

//! The program: real files, standard output, and the one call over them.
#![tactic(auto)]

use host_outside::{HostFiles, HostSink, given_words};
use st_outside::OpenGate;
use std::io;
use std::process::ExitCode;
use std::thread::Builder;
use step_run::{Status, step_run};

/// Bytes of stack. A group of 398 assignments, each of which nests the value before it 32 levels deep, composes formulas
/// that are some 30,000 nodes deep, over which calls recurse: this is 8 KiB for each.
const STACK: usize = 1 << 28;

/// The run goes on a thread for the sake of its stack. Where none can be made, memory was refused.
fn main(rt: HostRuntime) -> ExitCode {
    let run = move || -> u8 {
        let Ok(words) = given_words(&rt) else {
            return Status::Memory.number();
        };
        let mut files = HostFiles::new(&rt, &words);
        let mut out = HostSink::new(io::writer(&rt));
        step_run(&rt, rt.alloc(), &words, &mut files, &mut out, &OpenGate).number()
    };
    match Builder::new().stack_size(STACK).spawn(&rt, run) {
        Ok(thread) => ExitCode::from(thread.join(&rt)),
        Err(_) => ExitCode::from(Status::Memory.number()),
    }
}

//! The exact program, over real files and its own words.

use host_outside::{HostFiles, HostSink};
use st_outside::OpenGate;
use std::io;
use std::rt::Runtime;
use std::thread::Threads;
use step_run::step_run;

/// Runs `step` over the words behind the program's name, of which the first is `step` itself.
pub fn step<R: Runtime + AllocGlobal + Threads + Sync>(rt: &R, words: &[String]) -> u8 {
    let (_, words) = words.split_at(words.len().min(1));
    let mut files = HostFiles::new(rt, words);
    let mut out = HostSink::new(io::writer(rt));
    step_run(rt, rt.alloc(), words, &mut files, &mut out, &OpenGate).number()
}

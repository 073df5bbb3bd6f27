//! Files and sinks in memory, and the smallest case.

use st_outside::{MemoryFiles, MemorySink};
use std::test::Fail;

pub const PROGRAM: &str =
    "local x: integer where x = 0; P :: [ l0: loop forever do l1: x := x + 1 ]";

pub const PROOF: &str = "invariant pos: x >= 0;";

pub const CERTS: &str = "cert 1 case 1 { farkas [1*1, 3*1] absurd absurd };
cert 2 farkas [1*1, 2*1];
cert 3 case 1 { farkas [1*1, 2*1] absurd absurd };
cert 4 absurd;
cert 5 case 1 { absurd farkas [1*1, 2*1] absurd };
";

pub const REPORT: &str = "proved: goals 1, conditions 5\ninvariant pos\n";

pub fn stored(
    rt: &HostRuntime,
    texts: (&str, &str, &str),
    failing: &[u64],
    most: usize,
) -> Result<MemoryFiles, Fail> {
    let alloc = rt.alloc();
    let mut files = Vec::new(alloc);
    for (name, text) in [("p", texts.0), ("q", texts.1), ("c", texts.2)] {
        let name = String::from_str(alloc, name)?;
        files.push((name, text.as_bytes().to_vec(alloc)?))?;
    }
    let most = most.max(1);
    let made = MemoryFiles::new(alloc, files, failing.to_vec(alloc)?, most);
    Ok(made.ok().ok_or("memory")?)
}

pub fn words(rt: &HostRuntime, all: &[&str]) -> Result<Vec<String>, Fail> {
    let mut words = Vec::new(rt.alloc());
    for word in all {
        words.push(String::from_str(rt.alloc(), word)?)?;
    }
    Ok(words)
}

pub fn sink(
    rt: &HostRuntime,
    room: usize,
    failing: &[u64],
    most: usize,
) -> Result<MemorySink, Fail> {
    let failing = failing.to_vec(rt.alloc())?;
    let made = MemorySink::new(rt.alloc(), room, failing, most);
    Ok(made.ok().ok_or("memory")?)
}

/// The words that check the files `p`, `q` and `c`.
pub fn check_words(rt: &HostRuntime) -> Result<Vec<String>, Fail> {
    words(rt, &["step", "check", "p", "q", "c"])
}

//! Runs over an outside that fails, and over files without end.

use crate::fixture::{CERTS, PROGRAM, PROOF, REPORT, check_words, sink, stored};
use st_outside::{Failed, Files, OpenGate, Silent};
use std::test::Fail;
use step_run::{Status, step_run};

#[test]
fn each_read_fails_in_turn(rt: HostRuntime) -> Result<(), Fail> {
    let words = check_words(&rt)?;
    let texts = (PROGRAM, PROOF, CERTS);
    let mut files = stored(&rt, texts, &[], 1)?;
    let mut out = sink(&rt, 100, &[], 1)?;
    let status = step_run(&rt, rt.alloc(), &words, &mut files, &mut out, &OpenGate);
    assert_eq!(rt; status, Status::Proved);
    assert_eq!(rt; files.faults(), 0);
    let program = PROGRAM.len() as u64 + 1;
    let proof = PROOF.len() as u64 + 1;
    let calls = program
        .saturating_add(proof)
        .saturating_add(CERTS.len() as u64 + 1);
    assert_eq!(rt; files.calls(), calls);
    for k in 1..calls.saturating_add(1) {
        let mut files = stored(&rt, texts, &[k], 1)?;
        let mut out = sink(&rt, 100, &[], 1)?;
        let status = step_run(&rt, rt.alloc(), &words, &mut files, &mut out, &OpenGate);
        let want = if k <= program {
            "read fault: program\n"
        } else if k <= program.saturating_add(proof) {
            "read fault: proof\n"
        } else {
            "read fault: certificates\n"
        };
        assert_eq!(rt; status, Status::ReadFault, "at {k}");
        assert_eq!(rt; out.bytes(), want.as_bytes(), "at {k}");
        assert_eq!(rt; files.faults(), 1, "at {k}");
    }
    Ok(())
}

#[test]
fn each_write_fails_in_turn(rt: HostRuntime) -> Result<(), Fail> {
    let words = check_words(&rt)?;
    let calls = REPORT.len() as u64;
    for k in 1..calls.saturating_add(1) {
        let mut files = Silent {
            inner: stored(&rt, (PROGRAM, PROOF, CERTS), &[], 1000)?,
        };
        let mut out = sink(&rt, 100, &[k], 1)?;
        let status = step_run(&rt, rt.alloc(), &words, &mut files, &mut out, &OpenGate);
        assert_eq!(rt; status, Status::WriteFault, "at {k}");
        assert_eq!(rt; out.bytes().len() as u64, k.saturating_sub(1), "at {k}");
        assert!(rt; REPORT.as_bytes().starts_with(out.bytes()), "at {k}");
        assert_eq!(rt; out.faults(), 1, "at {k}");
    }
    Ok(())
}

/// A write of several bytes fails, there is no room, or nothing is taken.
#[test]
fn what_was_taken_is_a_prefix(rt: HostRuntime) -> Result<(), Fail> {
    let words = check_words(&rt)?;
    for (room, failing, most, taken) in [(100, 2, 10, 10), (5, 100, 1, 5), (100, 100, 0, 0)] {
        let mut files = Silent {
            inner: stored(&rt, (PROGRAM, PROOF, CERTS), &[], 7)?,
        };
        let mut out = sink(&rt, room, &[failing], most)?;
        let status = step_run(&rt, rt.alloc(), &words, &mut files, &mut out, &OpenGate);
        assert_eq!(rt; status, Status::WriteFault, "at {failing}");
        assert_eq!(rt; out.bytes().len(), taken, "at {failing}");
        assert!(rt; REPORT.as_bytes().starts_with(out.bytes()), "at {failing}");
        assert_eq!(rt; out.faults(), 1, "at {failing}");
    }
    Ok(())
}

#[test]
fn the_earlier_cause_comes_first(rt: HostRuntime) -> Result<(), Fail> {
    let words = check_words(&rt)?;
    let texts = (PROGRAM, PROOF, "cert 1 absurd;");
    for (read, write, status, report) in [
        (6, 100, 6, "read fault: certificates\n"),
        (6, 1, 7, ""),
        (1, 1, 7, ""),
    ] {
        let mut files = stored(&rt, texts, &[read], 1000)?;
        let mut out = sink(&rt, 100, &[write], 100)?;
        let ended = step_run(&rt, rt.alloc(), &words, &mut files, &mut out, &OpenGate);
        assert_eq!(rt; ended.number(), status, "at {read}");
        assert_eq!(rt; out.bytes(), report.as_bytes(), "at {read}");
    }
    Ok(())
}

/// Files that never end.
#[derive(Drop)]
struct Endless;

impl Files for Endless {
    ghost use Rattle.std.specs.Prelude.{None};

    ghost told = { λ _ _. None };

    ghost faults = { λ _ _. 0 };

    fn read_at(&mut self, _name: &str, _from: u64, buf: &mut [u8]) -> Result<usize, Failed> {
        for byte in buf.iter_mut() {
            *byte = b'%';
        }
        Ok(buf.len())
    }
}

#[test]
fn a_file_without_end_passes_its_limit(rt: HostRuntime) -> Result<(), Fail> {
    let words = check_words(&rt)?;
    let mut out = sink(&rt, 100, &[], 100)?;
    let ended = step_run(&rt, rt.alloc(), &words, &mut Endless, &mut out, &OpenGate);
    assert_eq!(rt; ended, Status::Limit);
    assert_eq!(rt; out.bytes(), b"limit: Text 4194304\n".as_slice());
    Ok(())
}

//! Runs over gates: two pieces side by side, and blocks that are discharged while their file is read.

use crate::fixture::{CERTS, PROGRAM, PROOF, REPORT, check_words, sink, stored, words};
use crate::gates::{Ended, SideBySide};
use st_outside::OpenGate;
use std::test::Fail;
use step_run::{Status, step_run};

#[test]
fn a_check_runs_side_by_side(rt: HostRuntime) -> Result<(), Fail> {
    let words = words(&rt, &["step", "check", "p", "q", "c", "--workers", "2"])?;
    let mut files = stored(&rt, (PROGRAM, PROOF, CERTS), &[], 1000)?;
    let mut out = sink(&rt, 100, &[], 100)?;
    let gate = SideBySide::new();
    let status = step_run(&rt, rt.alloc(), &words, &mut files, &mut out, &gate);
    assert_eq!(rt; status, Status::Proved);
    assert_eq!(rt; gate.marks(), 0);
    Ok(())
}

#[test]
fn a_search_runs_side_by_side(rt: HostRuntime) -> Result<(), Fail> {
    let words = words(&rt, &["step", "verify", "p", "q", "--workers", "2"])?;
    let mut files = stored(&rt, (PROGRAM, PROOF, CERTS), &[], 1000)?;
    let mut out = sink(&rt, 100, &[], 100)?;
    let gate = SideBySide::new();
    let status = step_run(&rt, rt.alloc(), &words, &mut files, &mut out, &gate);
    assert_eq!(rt; status, Status::Proved);
    assert_eq!(rt; gate.marks(), 0);
    Ok(())
}

/// The last call of the files fails, which only tells that the file of certificates has ended.
#[test]
fn blocks_are_discharged_before_the_last_read(rt: HostRuntime) -> Result<(), Fail> {
    let words = check_words(&rt)?;
    let bytes = PROGRAM.len() as u64 + PROOF.len() as u64 + CERTS.len() as u64;
    let mut files = stored(&rt, (PROGRAM, PROOF, CERTS), &[bytes + 3], 1)?;
    let mut out = sink(&rt, 100, &[], 100)?;
    let gate = Ended::new();
    let status = step_run(&rt, rt.alloc(), &words, &mut files, &mut out, &gate);
    assert_eq!(rt; status, Status::ReadFault);
    assert_eq!(rt; gate.ended(), 1);
    Ok(())
}

#[test]
fn texts_come_and_go_by_single_bytes(rt: HostRuntime) -> Result<(), Fail> {
    let words = check_words(&rt)?;
    let mut files = stored(&rt, (PROGRAM, PROOF, CERTS), &[], 1)?;
    let mut out = sink(&rt, 100, &[], 1)?;
    let status = step_run(&rt, rt.alloc(), &words, &mut files, &mut out, &OpenGate);
    assert_eq!(rt; status, Status::Proved);
    assert_eq!(rt; out.bytes(), REPORT.as_bytes());
    Ok(())
}

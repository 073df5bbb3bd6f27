//! The program and the proof of a workload.

ghost use Rattle.std.specs.Prelude.{◌≡◌, ◌+◌, ◌≤◌, ◌<◌, ◌^◌, ◌++◌, OnOk, IfOk};
ghost use Rattle.step_workload.specs.Parts.{each_from};
ghost use Rattle.step_workload.specs.Texts.{program_text, alone_inside, exclusion, access, proof_text};

use crate::parts::{push_each, push_filled, push_number, push_others, push_text};
use st_memory::Memory;
use std::alloc::Global;

fn push_program(alloc: Global, out: &mut Vec<u8>, n: u32) -> Result<(), Memory>
    requires { (1 ≤ n) × (n ≤ 4) }
    ensures { OnOk result (out.new.items ≡ out.old.items ++ program_text n) }
{
    push_text(out, b"local y: integer where y = 1; ")?;
    push_filled(
        alloc,
        out,
        b"P# :: [ p#_0: loop forever do [ p#_1: noncritical; p#_2: request y; p#_3: critical; p#_4: release y ] ]",
        1,
    )?;
    push_each(
        alloc,
        out,
        b" || P# :: [ p#_0: loop forever do [ p#_1: noncritical; p#_2: request y; p#_3: critical; p#_4: release y ] ]",
        2,
        n,
    )?;
    push_text(out, b"\n")?;
    Ok(())
}

/// That process i alone is in its critical section.
fn push_alone(alloc: Global, out: &mut Vec<u8>, n: u32, i: u32) -> Result<(), Memory>
    requires { n ≤ 4 }
    ensures { OnOk result (out.new.items ≡ out.old.items ++ alone_inside n i) }
{
    push_filled(alloc, out, b" \\/ (y = 0 /\\ (at p#_3 \\/ at p#_4)", i)?;
    push_others(alloc, out, b" /\\ ~at p#_3 /\\ ~at p#_4", i, n)?;
    push_text(out, b")")
}

/// The same for each process.
fn push_each_alone(alloc: Global, out: &mut Vec<u8>, n: u32) -> Result<(), Memory>
    requires { n ≤ 4 }
    ensures { OnOk result (out.new.items ≡ out.old.items ++ each_from (alone_inside n) 1 n) }
{
    for i in 1..n + 1 {
        push_alone(alloc, out, n, i)?;
    }
    Ok(())
}

/// The step that the processes exclude each other.
fn push_exclusion(alloc: Global, out: &mut Vec<u8>, n: u32) -> Result<(), Memory>
    requires { n ≤ 4 }
    ensures { OnOk result (out.new.items ≡ out.old.items ++ exclusion n) }
{
    push_text(out, b"invariant mux: (y = 1")?;
    push_each(alloc, out, b" /\\ ~at p#_3 /\\ ~at p#_4", 1, n)?;
    push_text(out, b")")?;
    push_each_alone(alloc, out, n)?;
    push_text(out, b";")?;
    Ok(())
}

/// The step that the first process comes in.
fn push_access(alloc: Global, out: &mut Vec<u8>, n: u32) -> Result<(), Memory>
    requires { (1 ≤ n) × (n ≤ 4) }
    ensures { OnOk result (out.new.items ≡ out.old.items ++ access n) }
{
    push_text(out, b" response enter: at p1_2 leads at p1_3 within ")?;
    push_number(alloc, out, 2 * n - 1)?;
    push_text(out, b" by fair p1_2 [ ")?;
    push_each(
        alloc,
        out,
        b"at p1_2 /\\ y = 0 /\\ at p#_3 helper p#_3; at p1_2 /\\ y = 0 /\\ at p#_4 helper p#_4; ",
        2,
        n,
    )?;
    push_text(out, b"at p1_2 /\\ y >= 1 ] using mux;\n")?;
    Ok(())
}

/// The texts of the workload with n processes, 1 to 4: its program and the proof.
pub fn workload_texts(alloc: Global, n: u32) -> Result<(Vec<u8>, Vec<u8>), Memory>
    requires { (1 ≤ n) × (n ≤ 4) }
    ensures { IfOk result (λ texts. (texts.0.items ≡ program_text n) × (texts.1.items ≡ proof_text n)) }
{
    let mut program = Vec::new(alloc);
    push_program(alloc, &mut program, n)?;
    let mut proof = Vec::new(alloc);
    push_exclusion(alloc, &mut proof, n)?;
    push_access(alloc, &mut proof, n)?;
    Ok((program, proof))
}

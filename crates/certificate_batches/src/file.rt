//! The file of certificates, read in pieces.

ghost use Rattle.std.specs.Prelude.{◌≡◌, ◌<◌, ◌≤◌, length, IfOk};
ghost use Rattle.std.specs.Thread.{IsSync};
ghost use Rattle.st_outside.specs.Faults.{NoneFell};
ghost use Rattle.step_plan.specs.Outcome.{ended_view, read_fault};
ghost use Rattle.step_plan.specs.Stage.{Comes, IfOn};
ghost use Rattle.certificate_batches.specs.Finding.{IsAmong, finding_view, certificates_plan};
ghost use Rattle.certificate_batches.specs.Claims.{setting_of, conditions_of, implications_of, MayBeChecked};
ghost use Rattle.step_report.specs.declared.refusals.FileRole.TheVariants as roles;

use crate::batches::Batches;
use crate::crew::Crew;
use crate::following::Follower;
use crate::{Claims, Finding};
use st_memory::Memory;
use st_outside::{Files, Gate};
use st_tokens::LimitKind;
use std::alloc::Global;
use std::thread::Threads;
use step_plan::{Ended, FileRole, Stage, Status, limited};

const LENGTH_LIMIT: u64 = 268_435_456;

const PIECE: usize = 65_536;

/// The end of a run over a file that failed.
fn read_fault(alloc: Global) -> Result<Ended, Memory>
    ensures { IfOk result (λ e. ended_view e ≡ read_fault roles.Certificates) }
{
    let mut text = Vec::new(alloc);
    step_report::read_fault(&mut text, FileRole::Certificates)?;
    Ok(Ended {
        status: Status::ReadFault,
        text,
    })
}

/// Checks conditions against a file of certificates while it is read. Answers the run's end where the file fails or is too
/// long.
pub fn check_file<R: Threads + Sync, F: Files, G: Gate + Sync>(
    rt: &R,
    alloc: Global,
    gate: &G,
    workers: u32,
    claims: &Claims<'_>,
    files: &mut F,
    name: &str,
) -> Result<Stage<Finding>, Memory>
    requires workers { 0 < workers }
    requires may { MayBeChecked claims.now }
    ensures comes { IfOk result (Comes finding_view (F.told files.old) (F.faults files.old) (F.faults files.new)
        (certificates_plan (setting_of claims.now) (implications_of claims.now) name.now)) }
    ensures among { IfOk result (λ s. IfOn s (IsAmong (length (conditions_of claims.now)))) }
    ensures same { F.told files.new ≡ F.told files.old }
    ensures later { NoneFell (F.faults files.old) (F.faults files.new) }
{
    let crew = Crew {
        rt,
        alloc,
        gate,
        workers,
    };
    let mut batches = Batches::new(alloc);
    let mut follower = Follower::new(alloc, claims)?;
    let mut buf = Vec::new(alloc);
    buf.resize(PIECE, 0u8)?;
    let mut size = 0u64;
    while size <= LENGTH_LIMIT {
        let Ok(count) = files.read_at(name, size, &mut buf) else {
            return Ok(Stage::Over(read_fault(alloc)?));
        };
        if count == 0 {
            let finding = batches.finish(&crew, claims, &mut follower)?;
            return Ok(Stage::On(finding));
        }
        batches.push(&crew, claims, &mut follower, &buf[..count])?;
        size += count as u64;
    }
    Ok(Stage::Over(limited(alloc, LimitKind::Certificates)?))
}

//! The words of commands.

ghost use Rattle.std.specs.Prelude.{◌≡◌, ◌++◌, OnOk};
ghost use Rattle.step_report.specs.Refused.{usage_text, usage_lines, words_refused_text};

use crate::pushing::push_text;
use st_memory::Memory;

/// A command of the program.
#[derive(Clone, Copy, Debug, PartialEq, Eq)]
pub enum Command {
    Check,
    Verify,
    Prove,
    Workload,
    Trace,
    Invariants,
}

fn usage_text(command: Command) -> &'static [u8]
    ensures { result.now ≡ usage_text command }
{
    match command {
        Command::Check => b"usage: step check PROGRAM PROOF CERTS [--workers N]".as_slice(),
        Command::Verify => b"usage: step verify PROGRAM PROOF [--workers N]".as_slice(),
        Command::Prove => b"usage: step prove PROGRAM PROOF".as_slice(),
        Command::Workload => b"usage: step workload N".as_slice(),
        Command::Trace => b"usage: step trace PROGRAM PROOF SCHEDULE".as_slice(),
        Command::Invariants => b"usage: step invariants PROGRAM".as_slice(),
    }
}

fn push_usage(out: &mut Vec<u8>, commands: &[Command]) -> Result<(), Memory>
    ensures { OnOk result (out.new.items ≡ out.old.items ++ usage_lines commands.now) }
{
    for command in commands {
        push_text(out, usage_text(*command))?;
        push_text(out, b"\n")?;
    }
    Ok(())
}

/// Appends the text for words that none of these commands takes.
pub fn words_refused(out: &mut Vec<u8>, commands: &[Command]) -> Result<(), Memory>
    ensures { OnOk result (out.new.items ≡ out.old.items ++ words_refused_text commands.now) }
{
    push_text(out, b"words refused\n")?;
    push_usage(out, commands)
}

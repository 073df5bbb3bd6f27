//! What is reported of a given run.

ghost use Rattle.std.specs.Prelude.{◌≡◌, ◌<◌, ◌^◌, ◌++◌, length, map, OnOk};
ghost use Rattle.std.specs.Fmt.{decimal};
ghost use Rattle.temporal_goals.specs.Plain.{plain_step};
ghost use Rattle.step_report.specs.Names.{line};
ghost use Rattle.step_report.specs.Traces.{moves_limit_text, illegal_start_text, illegal_move_text, value_limit_text, round_lines, judged_text, judged_lines, played_text};

use crate::goals::push_goal;
use crate::pushing::{push_number, push_text};
use run_judging::Judged;
use st_memory::Memory;
use st_program::NameTable;
use temporal_goals::Step;

/// A line of a text and a number.
fn push_numbered(out: &mut Vec<u8>, text: &[u8], number: u64) -> Result<(), Memory>
    ensures { OnOk result (out.new.items ≡ out.old.items ++ line (text.now ++ decimal number)) }
{
    push_text(out, text)?;
    push_number(out, number)?;
    push_text(out, b"\n")
}

/// Appends the text for a schedule of more moves than are read.
pub fn moves_limited(out: &mut Vec<u8>) -> Result<(), Memory>
    ensures { OnOk result (out.new.items ≡ out.old.items ++ moves_limit_text) }
{
    push_text(out, b"limit: Moves 1000\n")
}

/// Appends the text for a store in which the initial condition doesn't hold.
pub fn illegal_start(out: &mut Vec<u8>) -> Result<(), Memory>
    ensures { OnOk result (out.new.items ≡ out.old.items ++ illegal_start_text) }
{
    push_text(out, b"illegal: start\n")
}

/// Appends the text for a move, counted from 0, that isn't enabled.
pub fn illegal_move(out: &mut Vec<u8>, number: u32) -> Result<(), Memory>
    ensures { OnOk result (out.new.items ≡ out.old.items ++ illegal_move_text number) }
{
    let counted = u64::from(number) + 1;
    push_numbered(out, b"illegal: move ", counted)
}

/// Appends the text for a position at which a number is too large.
pub fn value_limit(out: &mut Vec<u8>, position: u32) -> Result<(), Memory>
    ensures { OnOk result (out.new.items ≡ out.old.items ++ value_limit_text position) }
{
    push_numbered(out, b"value limit: position ", u64::from(position))
}

fn push_rounds(out: &mut Vec<u8>, counts: &[u32]) -> Result<(), Memory>
    requires { length counts.now < 2 ^ 32 }
    ensures { OnOk result (out.new.items ≡ out.old.items ++ round_lines 0 counts.now) }
{
    let mut position = 0u64;
    for count in counts {
        push_text(out, b"rounds ")?;
        push_number(out, position)?;
        push_text(out, b": ")?;
        push_number(out, u64::from(*count))?;
        push_text(out, b"\n")?;
        position += 1;
    }
    Ok(())
}

fn push_judged(out: &mut Vec<u8>, judged: Judged) -> Result<(), Memory>
    ensures { OnOk result (out.new.items ≡ out.old.items ++ judged_text judged) }
{
    match judged {
        Judged::Holds => push_text(out, b"holds"),
        Judged::Fails(position) => {
            push_text(out, b"fails at ")?;
            push_number(out, u64::from(position))
        }
        Judged::Unclear(position) => {
            push_text(out, b"unclear at ")?;
            push_number(out, u64::from(position))
        }
    }
}

fn push_all_judged(
    out: &mut Vec<u8>,
    names: &NameTable,
    variables: u32,
    steps: &[Step],
    judged: &[Judged],
) -> Result<(), Memory>
    requires { variables ≡ length names.now.variables }
    ensures { OnOk result (out.new.items ≡ out.old.items ++ judged_lines names.now (map plain_step steps.now) judged.now) }
{
    let mut rest = judged;
    for step in steps {
        let Some((verdict, others)) = rest.split_first() else {
            return Ok(());
        };
        push_goal(out, names, variables, step.name.as_bytes(), &step.goal)?;
        push_text(out, b": ")?;
        push_judged(out, *verdict)?;
        push_text(out, b"\n")?;
        rest = others;
    }
    Ok(())
}

/// Appends the report of a run: how many moves it has, how many rounds begin at each position, and what was judged of the
/// goal of each step. `variables` is the number of variables.
pub fn played(
    out: &mut Vec<u8>,
    names: &NameTable,
    variables: u32,
    steps: &[Step],
    moves: u32,
    counts: &[u32],
    judged: &[Judged],
) -> Result<(), Memory>
    requires variables { variables ≡ length names.now.variables }
    requires few { length counts.now < 2 ^ 32 }
    ensures { OnOk result (out.new.items ≡ out.old.items ++ played_text names.now (map plain_step steps.now) moves counts.now judged.now) }
{
    push_text(out, b"played ")?;
    push_number(out, u64::from(moves))?;
    push_text(out, b"\n")?;
    push_rounds(out, counts)?;
    push_all_judged(out, names, variables, steps, judged)
}

//! The text of a leaf, and the words before the parts of a branch.

ghost use Rattle.std.specs.Prelude.{◌≡◌, ◌++◌, OnOk};
ghost use Rattle.st_certificate.specs.Tree.{linear};
ghost use Rattle.cert_text.specs.Spelling.{lines_text, tree_text, head_text};
ghost use Rattle.tree_writing.specs.Branches.{step_text};

use crate::words::{push_int, push_number, push_text};
use st_memory::Memory;
use tree_table::Step;

fn push_lines(out: &mut Vec<u8>, lines: &[(u32, i64)]) -> Result<(), Memory>
    ensures { OnOk result (out.new.items ≡ out.old.items ++ lines_text lines.now) }
{
    let mut first = true;
    for line in lines {
        if !first {
            push_text(out, b", ")?;
        }
        first = false;
        push_number(out, u64::from(line.0) + 1)?;
        push_text(out, b"*")?;
        push_int(out, &line.1)?;
    }
    Ok(())
}

/// Appends the text of a leaf of these picks.
pub(crate) fn push_leaf(out: &mut Vec<u8>, picks: &[(u32, i64)]) -> Result<(), Memory>
    ensures { OnOk result (out.new.items ≡ out.old.items ++ tree_text (linear picks.now)) }
{
    push_text(out, b"linear [")?;
    push_lines(out, picks)?;
    push_text(out, b"]")
}

fn push_head(out: &mut Vec<u8>, word: &[u8], n: u32) -> Result<(), Memory>
    ensures { OnOk result (out.new.items ≡ out.old.items ++ head_text word.now n) }
{
    push_text(out, word)?;
    push_number(out, u64::from(n) + 1)?;
    push_text(out, b" { ")
}

/// Appends what stands before the parts of a branch.
pub(crate) fn push_step(out: &mut Vec<u8>, step: Step) -> Result<(), Memory>
    ensures { OnOk result (out.new.items ≡ out.old.items ++ step_text step) }
{
    match step {
        Step::Case(component) => push_head(out, b"case ", component),
        Step::Truth(variable) => push_head(out, b"bool ", variable),
        Step::Split(disjunction) => push_head(out, b"split ", disjunction),
    }
}

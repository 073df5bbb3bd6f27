//! Leaves: rows or lines of the conjuncts whose picked multiples sum to a negative constant, as in Farkas' lemma
//! (Schrijver, *Theory of Linear and Integer Programming*, 1986, section 7.3).

ghost use Rattle.std.specs.Prelude.{◌≡◌, ◌<◌, ◌^◌, ◌++◌, ◌∷◌, IfOk, OnOk, length, true, None, Some, unsigned_abs, []};
ghost use Rattle.st_form.specs.Plain.{plain, plain_list};
ghost use Rattle.st_form.specs.Formula.{more};
ghost use Rattle.st_form.specs.Simple.{append};
ghost use Rattle.farkas_check.specs.Problem.{rows_of, rows_with, lines_of, lines_with};
ghost use Rattle.farkas_check.specs.PlainProblem.{plain_posed};
ghost use Rattle.farkas_check.specs.Limits.{AreFit};
ghost use Rattle.farkas_check.specs.Valid.{There};
ghost use Rattle.farkas_leaf.specs.Leaf as of_rows;
ghost use Rattle.farkas_leaf.specs.Lines as of_lines;
ghost use Rattle.std.specs.Prelude.{IsTrue, ◌↔◌, ◌≤◌};
ghost use Rattle.std.specs.List.{All};

use crate::problems::Posed;
use farkas_leaf::{leaf_closes, linear_closes};
use st_form::Form;
use st_linear::{Lin, Line};
use st_memory::Memory;
use std::alloc::Global;

/// Puts the rows of a conjunct behind others.
fn push_rows(alloc: Global, out: &mut Vec<Lin>, f: &Form) -> Result<(), Memory>
    ensures { OnOk result (out.new.items ≡ out.old.items ++ rows_with (plain f.now) []) }
{
    match f {
        Form::True => Ok(()),
        Form::False => Ok(()),
        Form::Row(g) => {
            out.push(g.copy(alloc)?)?;
            Ok(())
        }
        Form::Equal(g) => {
            out.push(g.copy(alloc)?)?;
            out.push(g.negated(alloc)?)?;
            Ok(())
        }
        Form::BoolVar(_) => Ok(()),
        Form::At(_) => Ok(()),
        Form::Not(_) => Ok(()),
        Form::And(_) => Ok(()),
        Form::Or(_) => Ok(()),
    }
}

/// The rows of conjuncts.
pub fn rows_of(alloc: Global, fs: &[Form]) -> Result<Vec<Lin>, Memory>
    ensures { IfOk result (λ v. v.items ≡ rows_of (plain_list fs.now)) }
{
    let mut out = Vec::with_capacity(alloc, fs.len())?;
    for f in fs {
        push_rows(alloc, &mut out, f)?;
    }
    Ok(out)
}

/// Puts the line of a conjunct, where it is one, behind others.
pub fn push_line(alloc: Global, out: &mut Vec<Line>, f: &Form) -> Result<(), Memory>
    ensures { OnOk result (out.new.items ≡ out.old.items ++ lines_with (plain f.now) []) }
{
    match f {
        Form::True => Ok(()),
        Form::False => Ok(()),
        Form::Row(g) => push_copy(alloc, out, g, false),
        Form::Equal(g) => push_copy(alloc, out, g, true),
        Form::BoolVar(_) => Ok(()),
        Form::At(_) => Ok(()),
        Form::Not(_) => Ok(()),
        Form::And(_) => Ok(()),
        Form::Or(_) => Ok(()),
    }
}

fn push_copy(alloc: Global, out: &mut Vec<Line>, f: &Lin, equal: bool) -> Result<(), Memory>
    ensures { OnOk result (out.new.items ≡ out.old.items ++ record { form = f.now; equal = equal } ∷ []) }
{
    let form = f.copy(alloc)?;
    out.push(Line { form, equal })?;
    Ok(())
}

/// The lines of conjuncts.
pub fn lines_of(alloc: Global, fs: &[Form]) -> Result<Vec<Line>, Memory>
    ensures { IfOk result (λ v. v.items ≡ lines_of (plain_list fs.now)) }
{
    let mut out = Vec::with_capacity(alloc, fs.len())?;
    for f in fs {
        push_line(alloc, &mut out, f)?;
    }
    Ok(out)
}

pub fn farkas_closes(alloc: Global, problem: &Posed, picks: &[(u32, u64)]) -> Result<bool, Memory>
    requires fit { AreFit (plain_posed problem.now).conjuncts }
    requires multipliers { All (λ p. p.1 < 2 ^ 40) picks.now }
    requires few { length picks.now ≤ 4096 }
    ensures { IfOk result (λ yes. IsTrue yes ↔ There (plain_posed problem.now).conjuncts (λ fs. of_rows.Closes (rows_of fs) picks.now)) }
{
    match &problem.conjuncts {
        None => Ok(false),
        Some(fs) => {
            let rows = rows_of(alloc, fs.as_slice())?;
            Ok(leaf_closes(rows.as_slice(), picks))
        }
    }
}

pub fn linear_sum_closes(
    alloc: Global,
    problem: &Posed,
    picks: &[(u32, i64)],
) -> Result<bool, Memory>
    requires fit { AreFit (plain_posed problem.now).conjuncts }
    requires multipliers { All (λ p. unsigned_abs p.1 < 2 ^ 40) picks.now }
    requires few { length picks.now ≤ 4096 }
    ensures { IfOk result (λ yes. IsTrue yes ↔ There (plain_posed problem.now).conjuncts (λ fs. of_lines.Closes (lines_of fs) picks.now)) }
{
    match &problem.conjuncts {
        None => Ok(false),
        Some(fs) => {
            let lines = lines_of(alloc, fs.as_slice())?;
            Ok(linear_closes(lines.as_slice(), picks))
        }
    }
}

//! The parts of statements: tests, targets and right sides.

ghost use Rattle.std.specs.Prelude.{◌≡◌, [], map};
ghost use Rattle.st_form.specs.Plain.{plain};
ghost use Rattle.st_program.specs.Plain.{plain_term, plain_target, plain_targets};
ghost use Rattle.st_reading.specs.Faults.{name_view};
ghost use Rattle.expression_parser.specs.ExpressionTree.{expr_view};
ghost use Rattle.expression_typer.specs.Answers.{Gives};
ghost use Rattle.expression_typer.specs.Scope.{scope_view, known_view};
ghost use Rattle.spl_typer.specs.Statements.{tested, target, counter, wanted, right_side, is_target, targets, changes, assigned};

use expression_typer::{Known, TypeFault, as_number, as_truth, find, typed_expression};
use spl_parser::{RawExpr, RawName};
use st_form::Form;
use st_program::Value;
use std::alloc::Global;

pub fn tested<'a>(alloc: Global, scope: &[Known<'a>], e: &RawExpr<'a>) -> Result<Form, TypeFault>
    ensures { Gives plain result (tested (scope_view scope.now) (expr_view e.now)) }
{
    let value = typed_expression(alloc, scope, e)?;
    as_truth(e.place, value)
}

pub fn target<'a>(scope: &[Known<'a>], name: &RawName<'a>) -> Result<Known<'a>, TypeFault>
    ensures { Gives known_view result (target (scope_view scope.now) (name_view name.now)) }
{
    match find(scope, name.text) {
        Some(known) => {
            if known.input {
                Err(TypeFault::InputAssigned(name.place))
            } else {
                Ok(known)
            }
        }
        None => Err(TypeFault::Unknown(name.place)),
    }
}

pub fn counter<'a>(scope: &[Known<'a>], name: &RawName<'a>) -> Result<u32, TypeFault>
    ensures { Gives (λ v. v) result (counter (scope_view scope.now) (name_view name.now)) }
{
    match find(scope, name.text) {
        Some(counter) => {
            if counter.truth {
                Err(TypeFault::WrongType(name.place))
            } else if counter.input {
                Err(TypeFault::InputAssigned(name.place))
            } else {
                Ok(counter.var)
            }
        }
        None => Err(TypeFault::Unknown(name.place)),
    }
}

fn wanted(truth: bool, place: u64, value: Value) -> Result<Value, TypeFault>
    ensures { Gives plain_term result (wanted truth place (plain_term value)) }
{
    if truth {
        Ok(Value::Truth(as_truth(place, value)?))
    } else {
        Ok(Value::Number(as_number(place, value)?))
    }
}

pub fn right_side<'a>(
    alloc: Global,
    scope: &[Known<'a>],
    known: &Known<'a>,
    e: &RawExpr<'a>,
) -> Result<(u32, Value), TypeFault>
    ensures { Gives plain_target result (right_side (scope_view scope.now) (known_view known.now) (expr_view e.now)) }
{
    let value = typed_expression(alloc, scope, e)?;
    let value = wanted(known.truth, e.place, value)?;
    Ok((known.var, value))
}

fn is_target<'a>(known: &[Known<'a>], var: u32) -> bool
    ensures { result ≡ is_target var (scope_view known.now) }
{
    for k in known {
        if k.var == var {
            return true;
        }
    }
    false
}

fn targets<'a>(
    alloc: Global,
    scope: &[Known<'a>],
    names: &[RawName<'a>],
) -> Result<Vec<Known<'a>>, TypeFault>
    ensures { Gives (λ v. scope_view v.items) result (targets (scope_view scope.now) [] (map name_view names.now)) }
{
    let mut out = Vec::new(alloc);
    for name in names {
        let known = target(scope, name)?;
        if is_target(&out, known.var) {
            return Err(TypeFault::SameTarget(name.place));
        }
        out.push(known)?;
    }
    Ok(out)
}

fn changes<'a>(
    alloc: Global,
    scope: &[Known<'a>],
    known: &[Known<'a>],
    values: &[RawExpr<'a>],
) -> Result<Vec<(u32, Value)>, TypeFault>
    ensures { Gives (λ v. plain_targets v.items) result (changes (scope_view scope.now) [] (scope_view known.now) (map expr_view values.now)) }
{
    let mut out = Vec::new(alloc);
    let mut i = 0;
    while i < known.len() && i < values.len() {
        let change = right_side(alloc, scope, &known[i], &values[i])?;
        out.push(change)?;
        i += 1;
    }
    Ok(out)
}

/// The changes of a multiple assignment.
pub fn assigned<'a>(
    alloc: Global,
    scope: &[Known<'a>],
    names: &[RawName<'a>],
    list: u64,
    values: &[RawExpr<'a>],
) -> Result<Vec<(u32, Value)>, TypeFault>
    ensures { Gives (λ v. plain_targets v.items) result (assigned (scope_view scope.now) (map name_view names.now) list (map expr_view values.now)) }
{
    let known = targets(alloc, scope, names)?;
    if names.len() != values.len() {
        return Err(TypeFault::WrongType(list));
    }
    changes(alloc, scope, &known, values)
}

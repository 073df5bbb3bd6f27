//! Expressions.

ghost use Rattle.std.specs.Prelude.{◌≡◌, IfOk, false, true, map, Ok};
ghost use Rattle.st_form.specs.Formula.{formulas, truth_value, negation, equal};
ghost use Rattle.st_form.specs.Plain.{plain, plain_list};
ghost use Rattle.expression_parser.specs.ExpressionTree.{expr_view, exprs_view};
ghost use Rattle.st_reading.specs.Faults.{name_view};
ghost use Rattle.expression_typer.specs.Answers.{Gives};
ghost use Rattle.expression_typer.specs.Scope.{scope_view};
ghost use Rattle.st_program.specs.Plain.{plain_term};
ghost use Rattle.expression_typer.specs.Chains.{paired, chained};
ghost use Rattle.expression_typer.specs.Typing.{typed, typed_by, all_typed_by, as_number, as_truth, named_by, placed_by, combine, is_implication, implied};

use crate::fault::TypeFault;
use crate::linear::{difference, less, lowered, negative, numeral, product, sum};
use crate::scope::{Known, Naming, Variables};
use expression_parser::{Operator, RawExpr, RawExprKind, RawName, RawTerm};
use st_form::{Form, Lin};
use st_program::Value;
use std::alloc::Global;

pub fn as_number(place: u64, value: Value) -> Result<Lin, TypeFault>
    ensures { Gives (λ f. f) result (as_number place (plain_term value)) }
{
    match value {
        Value::Number(f) => Ok(f),
        Value::Truth(_) => Err(TypeFault::WrongType(place)),
    }
}

pub fn as_truth(place: u64, value: Value) -> Result<Form, TypeFault>
    ensures { Gives plain result (as_truth place (plain_term value)) }
{
    match value {
        Value::Truth(f) => Ok(f),
        Value::Number(_) => Err(TypeFault::WrongType(place)),
    }
}

pub fn truth(value: bool) -> Form
    ensures { plain result ≡ truth_value value }
{
    if value { Form::True } else { Form::False }
}

fn named<N: Naming>(alloc: Global, names: &N, name: &RawName<'_>) -> Result<Value, TypeFault>
    ensures { Gives plain_term result (named_by (name_view name.now).place ((N.told names.now).variable (name_view name.now).text)) }
{
    match names.variable(name.text) {
        Some((var, true)) => Ok(Value::Truth(Form::BoolVar(var))),
        Some((var, false)) => Ok(Value::Number(Lin::variable(alloc, var)?)),
        None => Err(TypeFault::Unknown(name.place)),
    }
}

fn placed<N: Naming>(names: &N, name: &RawName<'_>) -> Result<Value, TypeFault>
    ensures { Gives plain_term result (placed_by (name_view name.now).place ((N.told names.now).place (name_view name.now).text)) }
{
    match names.place(name.text) {
        Some(location) => Ok(Value::Truth(Form::At(location))),
        None => Err(TypeFault::Unknown(name.place)),
    }
}

fn is_implication(operator: Operator) -> bool
    ensures { result ≡ is_implication operator }
{
    matches!(operator, Operator::Implies)
}

#[tactic(auto, using(st_form::proofs::Nodes::nodes))]
fn negation(alloc: Global, f: Form) -> Result<Form, TypeFault>
    ensures { Gives plain result (Ok (negation (plain f))) }
{
    Ok(Form::Not(Box::new(alloc, f)?))
}

#[tactic(auto, using(st_form::proofs::Nodes::nodes))]
fn implication(alloc: Global, f: Form, g: Form) -> Result<Form, TypeFault>
    ensures { Gives plain result (Ok (implied (plain f) (plain g))) }
{
    let mut parts = Vec::new(alloc);
    parts.push(negation(alloc, f)?)?;
    parts.push(g)?;
    Ok(Form::Or(parts))
}

#[tactic(auto, using(st_form::proofs::Nodes::nodes))]
fn apart(alloc: Global, f: Lin) -> Result<Form, TypeFault>
    ensures { Gives plain result (Ok (negation (equal f))) }
{
    Ok(Form::Not(Box::new(alloc, Form::Equal(f))?))
}

/// An operator between numbers.
fn combine(alloc: Global, operator: Operator, at: u64, f: &Lin, g: &Lin) -> Result<Value, TypeFault>
    ensures { Gives plain_term result (combine operator at f.now g.now) }
{
    match operator {
        Operator::Implies => Err(TypeFault::WrongType(at)),
        Operator::Equal => Ok(Value::Truth(Form::Equal(difference(alloc, at, f, g)?))),
        Operator::Unequal => Ok(Value::Truth(apart(alloc, difference(alloc, at, f, g)?)?)),
        Operator::Less => Ok(Value::Truth(Form::Row(lowered(alloc, at, g, f)?))),
        Operator::AtMost => Ok(Value::Truth(Form::Row(difference(alloc, at, g, f)?))),
        Operator::Greater => Ok(Value::Truth(Form::Row(lowered(alloc, at, f, g)?))),
        Operator::AtLeast => Ok(Value::Truth(Form::Row(difference(alloc, at, f, g)?))),
        Operator::Plus => Ok(Value::Number(sum(alloc, at, f, g)?)),
        Operator::Minus => Ok(Value::Number(less(alloc, at, f, g)?)),
        Operator::Times => Ok(Value::Number(product(alloc, at, f, g)?)),
    }
}

/// The meaning of an expression, or the first rule that is broken in it.
#[cycle(typed)]
#[tactic(auto, using(st_form::proofs::Nodes::nodes, expression_parser::proofs::Rows::kinds, crate::proofs::Chaining::chains))]
pub fn typed_by<N: Naming>(alloc: Global, names: &N, e: &RawExpr<'_>) -> Result<Value, TypeFault>
    ensures { Gives plain_term result (typed_by (N.told names.now) (expr_view e.now)) }
{
    match &e.kind {
        RawExprKind::Numeral(n) => Ok(Value::Number(numeral(alloc, *n)?)),
        RawExprKind::Truth(b) => Ok(Value::Truth(truth(*b))),
        RawExprKind::Name(n) => named(alloc, names, n),
        RawExprKind::At(n) => placed(names, n),
        RawExprKind::Not(of) => {
            let f = as_truth(of.place, typed_by(alloc, names, of)?)?;
            Ok(Value::Truth(negation(alloc, f)?))
        }
        RawExprKind::Negate { at, of } => {
            let f = as_number(of.place, typed_by(alloc, names, of)?)?;
            Ok(Value::Number(negative(alloc, *at, &f)?))
        }
        RawExprKind::All(items) => Ok(Value::Truth(Form::And(all_typed_by(alloc, names, items)?))),
        RawExprKind::Any(items) => Ok(Value::Truth(Form::Or(all_typed_by(alloc, names, items)?))),
        RawExprKind::Chain { first, rest } => {
            let value = typed_by(alloc, names, first)?;
            chained(alloc, names, first.place, value, rest)
        }
        RawExprKind::Pair {
            operator,
            at,
            left,
            right,
        } => {
            let value = typed_by(alloc, names, left)?;
            paired(alloc, names, *operator, *at, left.place, value, right)
        }
    }
}

/// An operator between a value, whose expression begins at a place, and an expression.
#[cycle(typed)]
fn paired<N: Naming>(
    alloc: Global,
    names: &N,
    operator: Operator,
    at: u64,
    place: u64,
    value: Value,
    right: &RawExpr<'_>,
) -> Result<Value, TypeFault>
    ensures { Gives plain_term result (paired (N.told names.now) operator at place (plain_term value) (expr_view right.now)) }
{
    if is_implication(operator) {
        let f = as_truth(place, value)?;
        let g = as_truth(right.place, typed_by(alloc, names, right)?)?;
        Ok(Value::Truth(implication(alloc, f, g)?))
    } else {
        let f = as_number(place, value)?;
        let g = as_number(right.place, typed_by(alloc, names, right)?)?;
        combine(alloc, operator, at, &f, &g)
    }
}

/// A value with further terms behind it, from the left.
#[cycle(typed)]
fn chained<N: Naming>(
    alloc: Global,
    names: &N,
    place: u64,
    first: Value,
    rest: &[RawTerm<'_>],
) -> Result<Value, TypeFault>
    ensures { Gives plain_term result (chained (N.told names.now) place (plain_term first) rest.now) }
{
    let mut value = first;
    for term in rest {
        value = paired(alloc, names, term.operator, term.at, place, value, &term.of)?;
    }
    Ok(value)
}

/// The parts of a conjunction or disjunction, each of which is to be a truth value.
#[cycle(typed)]
fn all_typed_by<N: Naming>(
    alloc: Global,
    names: &N,
    items: &[RawExpr<'_>],
) -> Result<Vec<Form>, TypeFault>
    ensures { Gives (λ v. plain_list v.items) result (all_typed_by (N.told names.now) (exprs_view items.now)) }
{
    let mut out = Vec::new(alloc);
    for item in items {
        let f = as_truth(item.place, typed_by(alloc, names, item)?)?;
        out.push(f)?;
    }
    Ok(out)
}

/// The meaning of an expression of a program, in which names stand for the variables of the scope.
pub fn typed_expression<'a>(
    alloc: Global,
    scope: &[Known<'a>],
    e: &RawExpr<'a>,
) -> Result<Value, TypeFault>
    ensures { Gives plain_term result (typed (scope_view scope.now) (expr_view e.now)) }
{
    typed_by(alloc, &Variables { known: scope }, e)
}

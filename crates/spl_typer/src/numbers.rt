//! The numbers along a path of a group: each right side of an integer variable over the store before the step.

ghost use Rattle.std.specs.Prelude.{◌≡◌, OnOk, map, Ok, [], Option};
ghost use Rattle.st_linear.specs.Answers as sums;
ghost use Rattle.st_linear.specs.Linear.{Linear};
ghost use Rattle.st_program.specs.Plain.{plain_targets};
ghost use Rattle.st_program.specs.Groups.{inserted};
ghost use Rattle.expression_typer.specs.Answers.{Gives};
ghost use Rattle.spl_typer.specs.Groups as rules;
ghost use Rattle.spl_typer.specs.GroupViews.{link_view, path_views};

use crate::paths::Link;
use expression_typer::{TypeFault, written};
use st_form::{Lin, LinFault};
use st_program::Value;
use std::alloc::{AllocError, Global};

pub fn small_or(at: u64, form: Result<Lin, LinFault>) -> Result<Lin, TypeFault>
    ensures { (o : Option Linear) → sums.Gives (λ f. f) form o → Gives (λ f. f) result (rules.large_unless at o) }
{
    match form {
        Ok(form) => Ok(form),
        Err(LinFault::TooLarge) => Err(TypeFault::TooLarge(at)),
        Err(LinFault::Memory) => Err(TypeFault::Memory),
    }
}

pub fn composed_number(
    alloc: Global,
    at: u64,
    numbers: &[(u32, Lin)],
    form: &Lin,
) -> Result<Lin, TypeFault>
    ensures { Gives (λ f. f) result (rules.composed_number at numbers.now form.now) }
{
    let composed = small_or(at, form.replace(alloc, numbers))?;
    written(at, composed)
}

/// A value in its place by rising variable; it replaces an earlier one.
pub fn insert<X: Drop>(list: &mut Vec<(u32, X)>, var: u32, value: X) -> Result<(), AllocError>
    ensures { OnOk result (list.new.items ≡ inserted var value list.old.items) }
{
    let mut i = 0;
    while i < list.len() && list[i].0 < var {
        i += 1;
    }
    if i < list.len() && list[i].0 == var {
        list[i].1 = value;
    } else {
        list.insert(i, (var, value))?;
    }
    Ok(())
}

/// The composed right sides of the integer variables of an assignment.
fn numbers_of(
    alloc: Global,
    at: u64,
    numbers: &[(u32, Lin)],
    changes: &[(u32, Value)],
) -> Result<Vec<(u32, Lin)>, TypeFault>
    ensures { Gives (λ v. v.items) result (rules.numbers_of at numbers.now [] (plain_targets changes.now)) }
{
    let mut out = Vec::new(alloc);
    for change in changes {
        if let Value::Number(form) = &change.1 {
            let form = composed_number(alloc, at, numbers, form)?;
            out.push((change.0, form))?;
        }
    }
    Ok(out)
}

/// The numbers with others put in their places.
fn numbers_put(numbers: Vec<(u32, Lin)>, new: Vec<(u32, Lin)>) -> Result<Vec<(u32, Lin)>, TypeFault>
    ensures { Gives (λ v. v.items) result (Ok (rules.numbers_put new.items numbers.items)) }
{
    let mut numbers = numbers;
    for (var, form) in new {
        insert(&mut numbers, var, form)?;
    }
    Ok(numbers)
}

fn numbers_behind(
    alloc: Global,
    at: u64,
    link: Link,
    numbers: Vec<(u32, Lin)>,
) -> Result<Vec<(u32, Lin)>, TypeFault>
    ensures { Gives (λ v. v.items) result (rules.numbers_behind at (link_view link.entry) numbers.items) }
{
    match link {
        Link::Tested(_, _) => Ok(numbers),
        Link::Given(changes) => {
            let new = numbers_of(alloc, at, &numbers, changes)?;
            numbers_put(numbers, new)
        }
    }
}

fn numbers_on(alloc: Global, at: u64, path: &[Link]) -> Result<Vec<(u32, Lin)>, TypeFault>
    ensures { Gives (λ v. v.items) result (rules.numbers_on at (map link_view path.now) []) }
{
    let mut numbers = Vec::new(alloc);
    for link in path {
        numbers = numbers_behind(alloc, at, *link, numbers)?;
    }
    Ok(numbers)
}

/// Whether the composed right sides of integer variables stay as small as written ones on each path.
pub fn all_small(alloc: Global, at: u64, paths: &[Vec<Link>]) -> Result<(), TypeFault>
    ensures { Gives (λ x. x) result (rules.all_small at (path_views paths.now)) }
{
    for path in paths {
        numbers_on(alloc, at, path)?;
    }
    Ok(())
}

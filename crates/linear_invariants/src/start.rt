//! The requirements of the start, as rows: an equation's value there is a combination of the equations that hold there, whose factors
//! have the columns behind the equation's own.

ghost use Rattle.std.specs.Prelude.{◌≡◌, ◌+◌, ◌<◌, ◌≤◌, ◌^◌, ◌++◌, [], ◌∷◌, IfOk, OnOk, length, take, neg_ℤ};
ghost use Rattle.st_form.specs.Plain.{plain, plain_list};
ghost use Rattle.transition_system.specs.Bounds.{FormulaWithin};
ghost use Rattle.equation_laws.specs.Space.{equations, equations_among, places, places_among};
ghost use Rattle.equation_laws.specs.Rows.{over_forms, first_variable_row, first_constant_row, variable_rows, first_rows};
ghost use Rattle.linear_invariants.specs.Plain.{term_of};
ghost use Rattle.linear_invariants.specs.Starts.{AreSlight};

use crate::requirements::{push_places, push_row, push_term, term};
use matrix_rows::Row;
use smallvec::SmallVec;
use st_form::{Form, Lin};
use st_linear::Entries;
use st_memory::Memory;
use std::alloc::Global;

/// How many equations of the start are used.
pub(crate) const FORMS: usize = 256;

/// The equations among the parts of the initial condition, and its locations.
#[derive(Drop)]
pub(crate) struct Start {
    pub(crate) forms: Vec<Lin>,
    pub(crate) places: Vec<u32>,
}

impl Start {
    pub(crate) fn none(alloc: Global) -> Start
        ensures forms { result.forms.items ≡ [] }
        ensures places { result.places.items ≡ [] }
    {
        Start {
            forms: Vec::new(alloc),
            places: Vec::new(alloc),
        }
    }
}

/// Appends the equations and the locations among the parts of a conjunction. Conjunctions in it are opened, and nothing else.
#[cycle(parts)]
#[tactic(auto, using(st_form::proofs::Nodes::nodes))]
pub(crate) fn push_parts(alloc: Global, form: &Form, out: &mut Start) -> Result<(), Memory>
    ensures forms { OnOk result (out.new.forms.items ≡ out.old.forms.items ++ equations (plain form.now)) }
    ensures places { OnOk result (out.new.places.items ≡ out.old.places.items ++ places (plain form.now)) }
{
    match form {
        Form::Equal(f) => {
            out.forms.push(f.copy(alloc)?)?;
            Ok(())
        }
        Form::At(l) => {
            out.places.push(*l)?;
            Ok(())
        }
        Form::And(fs) => push_all_parts(alloc, fs, out),
        Form::True | Form::False | Form::Row(_) | Form::BoolVar(_) | Form::Not(_) | Form::Or(_) =>
            Ok(()),
    }
}

#[cycle(parts)]
fn push_all_parts(alloc: Global, forms: &[Form], out: &mut Start) -> Result<(), Memory>
    ensures forms { OnOk result (out.new.forms.items ≡ out.old.forms.items ++ equations_among (plain_list forms.now)) }
    ensures places { OnOk result (out.new.places.items ≡ out.old.places.items ++ places_among (plain_list forms.now)) }
{
    for form in forms {
        push_parts(alloc, form, out)?;
    }
    Ok(())
}

/// The opposite of a term.
#[tactic(auto, unfolding(st_linear::specs::Linear::is_within))]
fn denied(of: Option<u32>, form: &Lin) -> i128
    ensures { result ≡ neg_ℤ (term_of of form.now) }
{
    -term(of, form)
}

/// Appends the factors' terms.
fn push_factors(
    out: &mut Entries,
    column: u32,
    forms: &[Lin],
    of: Option<u32>,
) -> Result<(), Memory>
    requires { column + length forms.now < 2 ^ 32 }
    ensures { OnOk result (out.new.items ≡ out.old.items ++ over_forms (term_of of) column forms.now) }
{
    let mut at = column;
    for form in forms {
        push_term(out, at, &denied(of, form))?;
        at += 1;
    }
    Ok(())
}

/// The requirement on a variable.
fn first_variable_entries(
    alloc: Global,
    variable: u32,
    column: u32,
    forms: &[Lin],
) -> Result<Entries, Memory>
    requires { column + length forms.now < 2 ^ 32 }
    ensures { IfOk result (λ v. v.items ≡ first_variable_row column forms.now variable) }
{
    let mut out = SmallVec::new(alloc);
    out.push((variable, 1))?;
    push_factors(&mut out, column, forms, Some(variable))?;
    Ok(out)
}

/// The requirement on the constant.
fn first_constant_entries(
    alloc: Global,
    variables: u32,
    locations: u32,
    places: &[u32],
    forms: &[Lin],
) -> Result<Entries, Memory>
    requires { variables + locations + 1 + length forms.now < 2 ^ 32 }
    ensures { IfOk result (λ v. v.items ≡ first_constant_row variables locations places.now forms.now) }
{
    let mut out = SmallVec::new(alloc);
    push_places(&mut out, variables, locations, places, &[])?;
    out.push((variables + locations, 1))?;
    push_factors(&mut out, variables + locations + 1, forms, None)?;
    Ok(out)
}

/// Appends the requirements of the start on variables.
fn push_first_variables(
    alloc: Global,
    variables: u32,
    locations: u32,
    forms: &[Lin],
    rows: &mut Vec<Row>,
) -> Result<(), Memory>
    requires few { variables + locations + 1 + length forms.now < 2 ^ 32 }
    requires slight { AreSlight forms.now }
    ensures { OnOk result (rows.new.items
        ≡ rows.old.items ++ variable_rows (first_variable_row (variables + locations + 1) forms.now) variables 0 []) }
{
    for variable in 0..variables {
        let entries = first_variable_entries(alloc, variable, variables + locations + 1, forms)?;
        push_row(alloc, rows, entries.as_slice())?;
    }
    Ok(())
}

/// Appends the requirements of the start.
pub(crate) fn push_first_rows(
    alloc: Global,
    variables: u32,
    locations: u32,
    places: &[u32],
    forms: &[Lin],
    rows: &mut Vec<Row>,
) -> Result<(), Memory>
    requires few { variables + locations + 1 + length forms.now < 2 ^ 32 }
    requires slight { AreSlight forms.now }
    ensures { OnOk result (rows.new.items ≡ rows.old.items ++ first_rows variables locations places.now forms.now) }
{
    push_first_variables(alloc, variables, locations, forms, rows)?;
    let last = first_constant_entries(alloc, variables, locations, places, forms)?;
    push_row(alloc, rows, last.as_slice())
}

//! The equations of a system.

ghost use Rattle.std.specs.Prelude.{◌≡◌, ◌+◌, ◌<◌, ◌^◌, ◌≤◌, IfOk, length, take};
ghost use Rattle.transition_system.specs.Plain.{plain_system};
ghost use Rattle.equation_laws.specs.Space.{start_forms, start_places};
ghost use Rattle.equation_laws.specs.Rows.{rows_of};
ghost use Rattle.equation_laws.specs.Equations.{AreFound, found};
ghost use Rattle.linear_invariants.specs.Answers.{Finds};
ghost use Rattle.linear_invariants.specs.Plain.{plain_equations};

use crate::equation::{Equation, equations_of};
use crate::fault::FindFault;
use crate::requirements::all_mode_rows;
use crate::start::{FORMS, Start, push_first_rows, push_parts};
use matrix_rows::Row;
use null_space::null_basis;
use st_linear::Lin;
use st_memory::Memory;
use std::alloc::Global;
use transition_system::Fts;

/// More locations than this leave no numbers for the columns behind them.
const LOCATIONS: u32 = u32::MAX - 400;

/// The first forms.
fn first_forms(forms: &[Lin]) -> &[Lin]
    ensures value { result.now ≡ take 256 forms.now }
    ensures few { length result.now ≤ 256 }
{
    if forms.len() > FORMS {
        &forms[..FORMS]
    } else {
        forms
    }
}

/// All requirements on equations: those of the modes, and then those of the start.
fn rows_of(alloc: Global, fts: &Fts, places: &[u32], forms: &[Lin]) -> Result<Vec<Row>, Memory>
    requires room { fts.now.locations + 400 < 2 ^ 32 }
    requires places { places.now ≡ start_places (plain_system fts.now) }
    requires forms { forms.now ≡ start_forms (plain_system fts.now) }
    ensures { IfOk result (λ v. v.items ≡ rows_of (plain_system fts.now)) }
{
    let mut rows = all_mode_rows(alloc, &fts.truths, fts.locations, &fts.transitions)?;
    push_first_rows(
        alloc,
        fts.truths.len() as u32,
        fts.locations,
        places,
        forms,
        &mut rows,
    )?;
    Ok(rows)
}

/// The equations of the reduced echelon basis whose first coefficient is a variable's, in order: all linear equations between
/// variables and locations that every mode keeps and that hold at the start are sums of multiples of these and of equations without
/// variables. Guards aren't used, and of the initial condition the first 256 equations.
///
/// `Wide` exactly where the elimination comes to a number of size 2^100 or more. `Memory` for want of memory, also where columns
/// would pass 32 bits.
pub fn find(alloc: Global, fts: &Fts) -> Result<Vec<Equation>, FindFault>
    ensures exact { Finds (λ v. plain_equations v.items) result (found (plain_system fts.now)) }
    ensures span { IfOk result (λ v. AreFound (plain_system fts.now) (plain_equations v.items)) }
{
    if fts.locations > LOCATIONS {
        return Err(FindFault::Memory);
    }
    let mut start = Start::none(alloc);
    push_parts(alloc, &fts.initial, &mut start)?;
    let forms = first_forms(&start.forms);
    let rows = rows_of(alloc, fts, &start.places, forms)?;
    let variables = fts.truths.len() as u32;
    let columns = variables + fts.locations + 1;
    let basis = null_basis(alloc, columns + forms.len() as u32, columns, rows)?;
    let equations = equations_of(alloc, variables, fts.locations, &basis)?;
    Ok(equations)
}

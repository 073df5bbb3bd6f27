//! The formula of an equation.

ghost use Rattle.std.specs.Prelude.{◌≡◌, ◌+ℤ◌, ◌∷◌, [], IfOk, map, true};
ghost use Rattle.std.specs.Option.{option_map};
ghost use Rattle.st_form.specs.Plain.{plain, plain_list};
ghost use Rattle.st_form.specs.Formula.{equal, formulas};
ghost use Rattle.equation_forms.specs.Formulas.{case_of, cases_slight, short_formula};
ghost use Rattle.linear_invariants.specs.Plain.{plain_equation};
ghost use Rattle.equation_writer.specs.Proper.{IsProper};
ghost use Rattle.equation_writer.specs.Plain.{plain_case};
ghost use Rattle.equation_writer.specs.Sums.{AreModest};

use crate::cases::{Case, cases, closed};
use crate::classes::groups;
use crate::limits::{are_few, cases_slight};
use crate::sums::sum;
use control_states::Components;
use linear_invariants::Equation;
use st_form::{Form, Lin};
use st_memory::Memory;
use std::alloc::Global;

/// The equation in a case.
fn equation_in(alloc: Global, equation: &Equation, added: &i128) -> Result<Form, Memory>
    requires proper { IsProper (plain_equation equation.now) }
    requires modest { AreModest (([], added.now) ∷ []) }
    requires slight { cases_slight (plain_equation equation.now) (([], added.now) ∷ []) ≡ true }
    ensures { IfOk result (λ f. plain f ≡ equal (record { constant = equation.now.constant +ℤ added.now; entries = equation.now.numbers.items })) }
{
    match Lin::of_entries(alloc, sum(&equation.constant, added), &equation.numbers)? {
        Some(form) => Ok(Form::Equal(form)),
        None => unreachable!(),
    }
}

/// The formula of a case.
fn case_form(alloc: Global, equation: &Equation, case: Case) -> Result<Form, Memory>
    requires proper { IsProper (plain_equation equation.now) }
    requires modest { AreModest (plain_case case ∷ []) }
    requires slight { cases_slight (plain_equation equation.now) (plain_case case ∷ []) ≡ true }
    ensures { IfOk result (λ f. plain f ≡ case_of (plain_equation equation.now) (plain_case case)) }
{
    let mut parts = case.parts;
    parts.push(equation_in(alloc, equation, &case.sum)?)?;
    Ok(closed(parts, true))
}

/// The formulas of all cases.
fn disjuncts(alloc: Global, equation: &Equation, cases: Vec<Case>) -> Result<Vec<Form>, Memory>
    requires proper { IsProper (plain_equation equation.now) }
    requires modest { AreModest (map plain_case cases.items) }
    requires slight { cases_slight (plain_equation equation.now) (map plain_case cases.items) ≡ true }
    ensures { IfOk result (λ v. map plain v.items ≡ map (case_of (plain_equation equation.now)) (map plain_case cases.items)) }
{
    let mut forms = Vec::with_capacity(alloc, cases.len())?;
    for case in cases {
        forms.push(case_form(alloc, equation, case)?)?;
    }
    Ok(forms)
}

/// The formula that is true exactly where an equation holds, or `None` exactly where it has more than 64 cases or 1,024 atoms, or a
/// number of size past 2^30.
pub fn form_of(
    alloc: Global,
    components: &Components,
    equation: &Equation,
) -> Result<Option<Form>, Memory>
    requires { IsProper (plain_equation equation.now) }
    ensures { IfOk result (λ o. option_map plain o ≡ short_formula components.now (plain_equation equation.now)) }
{
    let groups = groups(
        alloc,
        components.owners(),
        components.count(),
        &equation.places,
    )?;
    if !are_few(alloc, &groups)? {
        return Ok(None);
    }
    let cases = cases(alloc, &groups)?;
    if !cases_slight(equation, &cases) {
        return Ok(None);
    }
    Ok(Some(closed(disjuncts(alloc, equation, cases)?, false)))
}

//! The decisions of a program, by number: of each component to be at each of its alternatives, and of each variable to be
//! true or false; and which components have others inside, whose decisions make another context.

ghost use Rattle.std.specs.Prelude.{◌≡◌, ◌<◌, IfOk, ℕ, List, Bool, length, map, true, false};
ghost use Rattle.control_states.specs.Control.{ControlFacts, component_at};
ghost use Rattle.st_form.specs.declared.variables.Variable.{Variable};
ghost use Rattle.farkas_check.specs.PlainProblem.{setting};
ghost use Rattle.sharing_laws.specs.Lists.{by_case_alone, by_truth_alone};
ghost use Rattle.shared_search.specs.Books.{AreDecisions, AreKept, AreNumbered, IsDecision, IsLonger, case_decisions, truth_decisions};

use crate::insides::all_insides;
use control_states::{Alternative, Components};
use farkas_check::problems::{undecided_cases, undecided_truths};
use form_table::Table;
use st_form::Variable;
use st_memory::Memory;
use std::alloc::Global;

/// The numbers of the decisions of each component, one for each alternative, and of both decisions of each variable; and of each
/// component, whether it has others inside.
#[derive(Drop)]
pub struct Decisions {
    pub cases: Vec<Vec<u32>>,
    pub truths: Vec<Vec<u32>>,
    pub insides: Vec<bool>,
}

/// The decision of a component.
fn add_case(
    alloc: Global,
    table: &mut Table,
    components: &Components,
    component: u32,
    choice: Alternative,
) -> Result<u32, Memory>
    requires { component < length components.now.components }
    ensures longer { IfOk result (λ _. IsLonger table.old.decisions table.new.decisions) }
    ensures made { IfOk result (λ n. IsDecision table.new.decisions n (by_case_alone components.now component choice)) }
{
    let mut cases = undecided_cases(alloc, components.parts().len())?;
    cases[component as usize] = Some(choice);
    let places = components.places(alloc, cases.as_slice())?;
    table.add(Vec::new(alloc), places)
}

/// The decisions of a component, one for each alternative.
fn add_cases(
    alloc: Global,
    table: &mut Table,
    components: &Components,
    component: u32,
) -> Result<Vec<u32>, Memory>
    requires { component < length components.now.components }
    ensures longer { IfOk result (λ _. IsLonger table.old.decisions table.new.decisions) }
    ensures made { (vs : List Variable) → IfOk result (λ v. AreDecisions table.new.decisions v.items (case_decisions (setting components.now vs) component)) }
{
    let choices = components.alternatives(component);
    let mut out = Vec::new(alloc);
    for choice in choices {
        let number = add_case(alloc, table, components, component, *choice)?;
        out.push(number)?;
    }
    Ok(out)
}

/// The decisions of all components.
fn all_cases(
    alloc: Global,
    table: &mut Table,
    components: &Components,
) -> Result<Vec<Vec<u32>>, Memory>
    ensures longer { IfOk result (λ _. IsLonger table.old.decisions table.new.decisions) }
    ensures made { (vs : List Variable) → IfOk result (λ v. AreKept table.new.decisions (case_decisions (setting components.now vs)) v.items) }
{
    let mut out = Vec::new(alloc);
    for component in 0..components.count() {
        let numbers = add_cases(alloc, table, components, component)?;
        out.push(numbers)?;
    }
    Ok(out)
}

/// The decision of a variable.
fn add_truth(
    alloc: Global,
    table: &mut Table,
    components: &Components,
    variables: &[Variable],
    var: usize,
    to: bool,
) -> Result<u32, Memory>
    requires { var < length variables.now }
    ensures longer { IfOk result (λ _. IsLonger table.old.decisions table.new.decisions) }
    ensures made { IfOk result (λ n. IsDecision table.new.decisions n (by_truth_alone (setting components.now variables.now) var to)) }
{
    let mut truths = undecided_truths(alloc, variables.len())?;
    truths[var] = Some(to);
    let places = components.places(alloc, &[])?;
    table.add(truths, places)
}

/// Both decisions of a variable.
fn add_truths(
    alloc: Global,
    table: &mut Table,
    components: &Components,
    variables: &[Variable],
    var: usize,
) -> Result<Vec<u32>, Memory>
    requires { var < length variables.now }
    ensures longer { IfOk result (λ _. IsLonger table.old.decisions table.new.decisions) }
    ensures made { IfOk result (λ v. AreDecisions table.new.decisions v.items (truth_decisions (setting components.now variables.now) var)) }
{
    let yes = add_truth(alloc, table, components, variables, var, true)?;
    let no = add_truth(alloc, table, components, variables, var, false)?;
    Ok(vec![in alloc; yes, no]?)
}

/// The decisions of all variables.
fn all_truths(
    alloc: Global,
    table: &mut Table,
    components: &Components,
    variables: &[Variable],
) -> Result<Vec<Vec<u32>>, Memory>
    ensures longer { IfOk result (λ _. IsLonger table.old.decisions table.new.decisions) }
    ensures made { IfOk result (λ v. AreKept table.new.decisions (truth_decisions (setting components.now variables.now)) v.items) }
{
    let mut out = Vec::new(alloc);
    for var in 0..variables.len() {
        let numbers = add_truths(alloc, table, components, variables, var)?;
        out.push(numbers)?;
    }
    Ok(out)
}

/// The decisions of a program.
pub fn all_decisions(
    alloc: Global,
    table: &mut Table,
    components: &Components,
    variables: &[Variable],
) -> Result<Decisions, Memory>
    ensures { IfOk result (λ d. AreNumbered (setting components.now variables.now) table.new.decisions d) }
{
    let cases = all_cases(alloc, table, components)?;
    let truths = all_truths(alloc, table, components, variables)?;
    let insides = all_insides(alloc, components)?;
    Ok(Decisions {
        cases,
        truths,
        insides,
    })
}

//! How many workers share the conditions. A worker beside the first has the system's usual stack, while the first has the
//! program's own, so formulas that nest deeply, as those behind a group may, are left to one worker.
ghost use Rattle.std.specs.Prelude.{◌<◌};

use st_form::{Condition, Consequent, Form, SharedForm};

/// Levels of nesting for which the system's usual stack is room enough.
const MOST_LEVELS: u32 = 256;

#[cycle(nests)]
fn nests_within(levels: u32, form: &Form) -> bool {
    match form {
        Form::True | Form::False | Form::BoolVar(_) | Form::At(_) | Form::Row(_) | Form::Equal(_) =>
            true,
        Form::Not(f) => 0 < levels && nests_within(levels - 1, f),
        Form::And(fs) => 0 < levels && all_nest_within(levels - 1, fs),
        Form::Or(fs) => 0 < levels && all_nest_within(levels - 1, fs),
    }
}

#[cycle(nests)]
fn all_nest_within(levels: u32, forms: &[Form]) -> bool {
    for form in forms {
        if !nests_within(levels, form) {
            return false;
        }
    }
    true
}

/// Whether formulas that stand in a conjunction, or in one inside a disjunction, nest within the levels that are left there.
fn are_shallow(levels: u32, forms: &[SharedForm]) -> bool {
    for form in forms {
        if !nests_within(levels, form.get()) {
            return false;
        }
    }
    true
}

fn are_cases_shallow(cases: &[Vec<SharedForm>]) -> bool {
    for case in cases {
        if !are_shallow(MOST_LEVELS - 2, case.as_slice()) {
            return false;
        }
    }
    true
}

fn is_shallow(condition: &Condition) -> bool {
    let shown = match &condition.shown {
        Consequent::One(form) => nests_within(MOST_LEVELS, form.get()),
        Consequent::Any(cases) => are_cases_shallow(cases.as_slice()),
    };
    shown && are_shallow(MOST_LEVELS - 1, condition.given.as_slice())
}

/// As many workers as were asked for, or one where a condition nests deeply.
pub fn crew(workers: u32, conditions: &[Condition]) -> u32
    requires { 0 < workers }
    ensures { 0 < result }
{
    if workers < 2 {
        return workers;
    }
    for condition in conditions {
        if !is_shallow(condition) {
            return 1;
        }
    }
    workers
}

//! What may be decided next: which components are active and undecided, and which variables are of which type.

ghost use Rattle.std.specs.Prelude.{◌≡◌, ◌<◌, slice_get, slice_index_or, true, None, Some};
ghost use Rattle.st_form.specs.Simple.{parts};
ghost use Rattle.farkas_check.specs.Problem.{is_free, is_within, known_active, may_case, has_truth, has_number, are_integers};

use control_states::{Alternative, Components, around_at};
use st_form::Variable;

pub fn case_free(cases: &[Option<Alternative>], component: u32) -> bool
    ensures { result ≡ is_free (slice_get cases.now component) }
{
    match cases.get(component as usize) {
        Some(Some(_)) => false,
        Some(None) => true,
        None => false,
    }
}

pub fn truth_free(truths: &[Option<bool>], var: u32) -> bool
    ensures { result ≡ is_free (slice_get truths.now var) }
{
    match truths.get(var as usize) {
        Some(Some(_)) => false,
        Some(None) => true,
        None => false,
    }
}

pub fn is_within(cases: &[Option<Alternative>], component: u32, cooperation: u32) -> bool
    ensures { result ≡ is_within cooperation (slice_index_or cases.now component None) }
{
    match cases.get(component as usize) {
        Some(Some(Alternative::Inside(other))) => *other == cooperation,
        Some(Some(Alternative::Location(_))) => false,
        Some(None) => false,
        None => false,
    }
}

pub fn known_active(cases: &[Option<Alternative>], around: Option<(u32, u32)>) -> bool
    ensures { result ≡ known_active cases.now around }
{
    match around {
        None => true,
        Some(way) => is_within(cases, way.0, way.1),
    }
}

pub fn may_case(components: &Components, cases: &[Option<Alternative>], component: u32) -> bool
    ensures { result ≡ may_case components.now cases.now component }
{
    let parts = components.parts();
    (component as usize) < parts.len()
        && (case_free(cases, component) && known_active(cases, around_at(parts, component)))
}

pub fn has_truth(variables: &[Variable], var: u32) -> bool
    ensures { result ≡ has_truth (slice_get variables.now var) }
{
    match variables.get(var as usize) {
        Some(variable) => variable.truth,
        None => false,
    }
}

pub fn has_number(variables: &[Variable], var: u32) -> bool
    ensures { result ≡ has_number (slice_get variables.now var) }
{
    match variables.get(var as usize) {
        Some(variable) => !variable.truth,
        None => false,
    }
}

pub fn are_integers(variables: &[Variable], entries: &[(u32, i128)]) -> bool
    ensures { result ≡ are_integers variables.now entries.now }
{
    for e in entries {
        if !has_number(variables, e.0) {
            return false;
        }
    }
    true
}

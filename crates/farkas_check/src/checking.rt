//! The check of a certificate for a condition.
//!
//! A certificate is a tree that divides the states in which a condition might fail until each part is refuted. The check
//! is exact, and a yes means that the condition holds in every control state with every store: by induction on the tree,
//! no state meets a problem that has a valid certificate.

ghost use Rattle.std.specs.Prelude.{IfOk, IsTrue, ◌↔◌};
ghost use Rattle.st_form.specs.Shared.{given_of, shown_of};
ghost use Rattle.st_certificate.specs.Plain.{plain as tree_of};
ghost use Rattle.farkas_check.specs.PlainProblem.{setting};
ghost use Rattle.farkas_check.specs.Limits.{IsNarrow, IsLimited};
ghost use Rattle.farkas_check.specs.Valid.{IsCertificate};
ghost use Rattle.farkas_check.specs.Meaning.{IsValidCondition};

use crate::closing::closes;
use crate::problems::first_problem;
use control_states::Components;
use st_certificate::Certificate;
use st_form::{Condition, Variable};
use st_memory::Memory;
use std::alloc::Global;

/// Whether a certificate is valid for a condition. The certificate is within the limits of certificates: cut entries
/// and the condition's entries below 2^69, multipliers below 2^40 in size, at most 4,096 picks a leaf.
pub fn check(
    alloc: Global,
    components: &Components,
    variables: &[Variable],
    condition: &Condition,
    certificate: &Certificate,
) -> Result<bool, Memory>
    requires limited { IsLimited (tree_of certificate.now) }
    requires given { IsNarrow (given_of condition.now) }
    requires shown { IsNarrow (shown_of condition.now) }
    ensures exact { IfOk result (λ yes. IsTrue yes
        ↔ IsCertificate (setting components.now variables.now) (given_of condition.now) (shown_of condition.now) (tree_of certificate.now)) }
    ensures sound { IfOk result (λ yes. IsTrue yes → IsValidCondition components.now (given_of condition.now) (shown_of condition.now)) }
{
    let problem = first_problem(alloc, components, variables, condition)?;
    closes(alloc, components, variables, certificate, &problem)
}

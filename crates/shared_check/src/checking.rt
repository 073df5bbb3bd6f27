//! The check of a certificate for a condition.

ghost use Rattle.std.specs.Prelude.{◌↔◌, IfOk, IfSome, IsTrue};
ghost use Rattle.st_form.specs.Shared.{given_of, shown_of};
ghost use Rattle.st_certificate.specs.Plain.{plain as tree_of};
ghost use Rattle.farkas_check.specs.PlainProblem.{setting};
ghost use Rattle.farkas_check.specs.Limits.{IsLimited, IsNarrow};
ghost use Rattle.farkas_check.specs.Valid.{IsCertificate};
ghost use Rattle.form_table.specs.Contents.{Grows};
ghost use Rattle.shared_search.specs.Books.{AreNumbered};

use crate::closing::closes;
use crate::problems::undecided;
use control_states::Components;
use form_table::Table;
use shared_search::Decisions;
use st_certificate::Certificate;
use st_form::{Condition, Variable};
use st_memory::Memory;
use std::alloc::Global;

/// Whether a certificate is valid for a condition, checked over lists of conjuncts. With `None` nothing is said: the table is
/// full.
pub fn check(
    alloc: Global,
    table: &mut Table,
    decisions: &Decisions,
    components: &Components,
    variables: &[Variable],
    condition: &Condition,
    certificate: &Certificate,
) -> Result<Option<bool>, Memory>
    requires limited { IsLimited (tree_of certificate.now) }
    requires given { IsNarrow (given_of condition.now) }
    requires shown { IsNarrow (shown_of condition.now) }
    requires numbered { AreNumbered (setting components.now variables.now) table.old.decisions decisions.now }
    ensures grows { Grows table.old table.new }
    ensures exact { IfOk result (λ o. IfSome o (λ yes. IsTrue yes
        ↔ IsCertificate (setting components.now variables.now) (given_of condition.now) (shown_of condition.now) (tree_of certificate.now))) }
{
    let list = table.first_list(alloc, condition.given.as_slice(), &condition.shown)?;
    let problem = undecided(alloc, components.parts().len(), variables.len(), list)?;
    closes(
        alloc,
        table,
        decisions,
        components,
        variables,
        certificate,
        &problem,
    )
}

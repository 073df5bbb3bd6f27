//! Certificates entered into a table, part by part.

ghost use Rattle.std.specs.Prelude.{◌≡◌, IfOk, map};
ghost use Rattle.st_certificate.specs.Plain.{plain, plain_trees};
ghost use Rattle.st_certificate.specs.Tree.{branch, by_cut};
ghost use Rattle.shared_certificates.specs.Nodes.{certificates, step_view, table_view};
ghost use Rattle.certificate_sharing.specs.Sharing.{Has, HasAll, trees_in};

use crate::nodes::{put_absurd, put_branch, put_farkas, put_linear};
use hint_index::{Index, no_index};
use shared_certificates::{Refusal, Step, Table};
use st_certificate::Certificate;
use st_linear::Lin;
use std::alloc::Global;

/// The number of a certificate's tree.
#[cycle(enter)]
#[tactic(auto, using(st_certificate::proofs::Nodes::all_nodes))]
fn enter(
    alloc: Global,
    certificate: &Certificate,
    table: &mut Table,
    index: &mut Index,
) -> Result<u32, Refusal>
    ensures { IfOk result (λ n. Has (trees_in table.old) (trees_in table.new) n (plain certificate.now)) }
{
    match certificate {
        Certificate::Absurd => put_absurd(alloc, table, index),
        Certificate::Farkas(picks) => put_farkas(alloc, table, index, picks.as_slice()),
        Certificate::Linear(lines) => put_linear(alloc, table, index, lines.as_slice()),
        Certificate::Case(c, parts) => enter_branch(alloc, parts, Step::Case(*c), table, index),
        Certificate::Bool(v, parts) => enter_branch(alloc, parts, Step::Truth(*v), table, index),
        Certificate::Split(k, parts) => enter_branch(alloc, parts, Step::Split(*k), table, index),
        Certificate::Cut(form, parts) => enter_cut(alloc, parts, form, table, index),
    }
}

/// The number of the tree that divides by a form.
#[cycle(enter)]
fn enter_cut(
    alloc: Global,
    parts: &[Certificate],
    form: &Lin,
    table: &mut Table,
    index: &mut Index,
) -> Result<u32, Refusal>
    ensures { IfOk result (λ n. Has (trees_in table.old) (trees_in table.new) n (branch (by_cut form.now) (plain_trees parts.now))) }
{
    let form = Box::new(alloc, form.copy(alloc)?)?;
    enter_branch(alloc, parts, Step::Cut(form), table, index)
}

/// The number of the tree that makes this step.
#[cycle(enter)]
fn enter_branch(
    alloc: Global,
    parts: &[Certificate],
    step: Step,
    table: &mut Table,
    index: &mut Index,
) -> Result<u32, Refusal>
    ensures { IfOk result (λ n. Has (trees_in table.old) (trees_in table.new) n (branch (step_view step) (plain_trees parts.now))) }
{
    let numbers = enter_all(alloc, parts, table, index)?;
    put_branch(alloc, table, index, step, numbers)
}

/// The numbers of the trees of certificates.
#[cycle(enter)]
fn enter_all(
    alloc: Global,
    certificates: &[Certificate],
    table: &mut Table,
    index: &mut Index,
) -> Result<Vec<u32>, Refusal>
    ensures { IfOk result (λ v. HasAll (trees_in table.old) (trees_in table.new) v.items (map plain certificates.now)) }
{
    let mut out = Vec::with_capacity(alloc, certificates.len())?;
    for certificate in certificates {
        let number = enter(alloc, certificate, table, index)?;
        out.push(number)?;
    }
    Ok(out)
}

/// The table of these certificates, in their order. A tree of more than 400 levels is refused as over a limit.
pub fn shared(alloc: Global, given: &[Certificate]) -> Result<Table, Refusal>
    ensures { IfOk result (λ t. certificates (table_view t) ≡ map plain given.now) }
{
    let mut table = Table {
        nodes: Vec::new(alloc),
        levels: Vec::new(alloc),
        roots: Vec::new(alloc),
    };
    let mut index = no_index(alloc);
    let roots = enter_all(alloc, given, &mut table, &mut index)?;
    table.roots = roots;
    Ok(table)
}

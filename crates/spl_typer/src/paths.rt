//! The paths of a group. A path chooses a branch at each conditional that it meets; paths are ordered by their choices,
//! the true branch before the false one, the first choice weighing most.

ghost use Rattle.std.specs.Prelude.{◌≡◌, IfOk, OnOk, length, min, map, ◌++◌, [], ◌∷◌, flat_map};
ghost use Rattle.st_program.specs.Plain.{plain_inner, plain_pieces};
ghost use Rattle.st_program.specs.Groups.{paths, paths_along};
ghost use Rattle.spl_typer.specs.GroupViews.{link_view, path_view, path_views};

use st_form::Form;
use st_memory::Memory;
use st_program::{Inner, Value};
use std::alloc::Global;

/// A test that must have this value, or an assignment.
#[derive(Clone, Copy)]
pub enum Link<'a> {
    Tested(&'a Form, bool),
    Given(&'a [(u32, Value)]),
}

/// How many paths there are, or 65 where there are more than 64.
#[cycle(count)]
#[tactic(auto, using(crate::proofs::Pieces::pieces))]
fn count_of(piece: &Inner) -> u64
    ensures { result ≡ min (length (paths (plain_inner piece.now))) 65 }
{
    match piece {
        Inner::Skip | Inner::Assign(_) | Inner::Await(_) => 1,
        Inner::If { test: _, yes, no } => (count_along(yes) + count_along(no)).min(65),
    }
}

#[cycle(count)]
pub fn count_along(pieces: &[Inner]) -> u64
    ensures { result ≡ min (length (paths_along (plain_pieces pieces.now))) 65 }
{
    let mut product: u64 = 1;
    for piece in pieces {
        product = (product * count_of(piece)).min(65);
    }
    product
}

/// Each path with a link in front.
fn begun<'a>(
    alloc: Global,
    link: Link<'a>,
    paths: &[Vec<Link<'a>>],
) -> Result<Vec<Vec<Link<'a>>>, Memory>
    ensures { IfOk result (λ v. path_views v.items ≡ map (λ path. link_view link.entry ∷ path) (path_views paths.now)) }
{
    let mut out = Vec::new(alloc);
    for path in paths {
        let mut longer = vec![in alloc; link]?;
        longer.extend_from_slice(path)?;
        out.push(longer)?;
    }
    Ok(out)
}

/// A path, and each of others behind it.
fn continued<'a>(
    alloc: Global,
    path: &[Link<'a>],
    further: &[Vec<Link<'a>>],
) -> Result<Vec<Vec<Link<'a>>>, Memory>
    ensures { IfOk result (λ v. path_views v.items ≡ map (λ more. map link_view path.now ++ more) (path_views further.now)) }
{
    let mut out = Vec::new(alloc);
    for more in further {
        let mut longer = Vec::from_slice(alloc, path)?;
        longer.extend_from_slice(more)?;
        out.push(longer)?;
    }
    Ok(out)
}

/// Each path with each of others behind it.
fn product<'a>(
    alloc: Global,
    paths: &[Vec<Link<'a>>],
    further: &[Vec<Link<'a>>],
) -> Result<Vec<Vec<Link<'a>>>, Memory>
    ensures { IfOk result (λ v. path_views v.items
        ≡ flat_map (λ path. map (λ more. path ++ more) (path_views further.now)) (path_views paths.now)) }
{
    let mut out = Vec::new(alloc);
    for path in paths {
        let mut longer = continued(alloc, path, further)?;
        out.append(&mut longer)?;
    }
    Ok(out)
}

/// One path, of one link.
fn one_path<'a>(alloc: Global, link: Link<'a>) -> Result<Vec<Vec<Link<'a>>>, Memory>
    ensures { IfOk result (λ v. path_views v.items ≡ (link_view link.entry ∷ []) ∷ []) }
{
    let path = vec![in alloc; link]?;
    Ok(vec![in alloc; path]?)
}

/// The paths through a piece.
#[cycle(paths)]
#[tactic(auto, using(crate::proofs::Pieces::pieces))]
fn paths_of<'a>(alloc: Global, piece: &'a Inner) -> Result<Vec<Vec<Link<'a>>>, Memory>
    ensures { IfOk result (λ v. path_views v.items ≡ paths (plain_inner piece.now)) }
{
    match piece {
        Inner::Skip => Ok(vec![in alloc; Vec::new(alloc)]?),
        Inner::Assign(changes) => one_path(alloc, Link::Given(changes)),
        Inner::Await(test) => one_path(alloc, Link::Tested(test, true)),
        Inner::If { test, yes, no } => {
            let yes = paths_along(alloc, yes)?;
            let no = paths_along(alloc, no)?;
            let mut out = begun(alloc, Link::Tested(test, true), &yes)?;
            let mut others = begun(alloc, Link::Tested(test, false), &no)?;
            out.append(&mut others)?;
            Ok(out)
        }
    }
}

/// The paths through pieces.
#[cycle(paths)]
pub fn paths_along<'a>(alloc: Global, pieces: &'a [Inner]) -> Result<Vec<Vec<Link<'a>>>, Memory>
    ensures { IfOk result (λ v. path_views v.items ≡ paths_along (plain_pieces pieces.now)) }
{
    let mut all = vec![in alloc; Vec::new(alloc)]?;
    for piece in pieces {
        let further = paths_of(alloc, piece)?;
        all = product(alloc, &all, &further)?;
    }
    Ok(all)
}

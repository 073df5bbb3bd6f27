//! The names of a program, from what the walk has met.

ghost use Rattle.std.specs.Prelude.{◌≡◌, [], map};
ghost use Rattle.std.specs.String.{string_bytes};
ghost use Rattle.expression_typer.specs.Answers.{Gives};
ghost use Rattle.spl_typer.specs.Walk.{entries};
ghost use Rattle.expression_typer.specs.Naming.{is_text};
ghost use Rattle.spl_typer.specs.Programs.{text_of, variables_of, labels_of};

use crate::walk::{Entry, Mark};
use expression_typer::TypeFault;
use st_tokens::LimitKind;
use std::alloc::Global;

fn is_text(name: &[u8]) -> bool
    ensures { result ≡ is_text name.now }
{
    for byte in name {
        if *byte >= 128 {
            return false;
        }
    }
    true
}

/// A name as a string of its own.
fn text_of(alloc: Global, name: &[u8]) -> Result<String, TypeFault>
    ensures { Gives string_bytes result (text_of name.now) }
{
    if !is_text(name) {
        return Err(TypeFault::Limit(LimitKind::Text, 0));
    }
    match String::from_utf8(Vec::from_slice(alloc, name)?) {
        Ok(text) => Ok(text),
        Err(_) => Err(TypeFault::Limit(LimitKind::Text, 0)),
    }
}

/// The variables in order, each with whether it is boolean.
pub fn variables_of(alloc: Global, names: &[Entry]) -> Result<Vec<(String, bool)>, TypeFault>
    ensures { Gives (λ v. map (λ x. (string_bytes x.0, x.1)) v.items) result (variables_of [] (entries names.now)) }
{
    let mut out = Vec::new(alloc);
    for entry in names {
        let name = text_of(alloc, entry.name)?;
        if let Mark::Variable(truth) = entry.mark {
            out.push((name, truth))?;
        }
    }
    Ok(out)
}

/// The labels in text order, each with its location and, where it is a statement's, its occurrence.
pub fn labels_of(
    alloc: Global,
    names: &[Entry],
) -> Result<Vec<(String, u32, Option<u32>)>, TypeFault>
    ensures { Gives (λ v. map (λ x. (string_bytes x.0, (x.1, x.2))) v.items) result (labels_of [] (entries names.now)) }
{
    let mut out = Vec::new(alloc);
    for entry in names {
        let name = text_of(alloc, entry.name)?;
        if let Mark::Label(location, occ) = entry.mark {
            out.push((name, location, occ))?;
        }
    }
    Ok(out)
}

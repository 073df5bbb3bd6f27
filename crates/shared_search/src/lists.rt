//! Lists in contexts, and those that a list is divided into.

ghost use Rattle.std.specs.Prelude.{◌≡◌, ◌<◌, IfOk, All, length, map};
ghost use Rattle.form_table.specs.Contents.{Grows, formulas_of};
ghost use Rattle.form_table.specs.Lists.{IsList, conjuncts_of};
ghost use Rattle.sharing_laws.specs.Contexts.{in_context};
ghost use Rattle.shared_search.specs.Contexts.{ContextTable, context_at};
ghost use Rattle.shared_search.specs.Lists.{AreChildren, child_at, moved, under_each};

use form_table::Table;
use st_memory::Memory;
use std::alloc::Global;

/// A list in a context, or a false problem.
#[derive(Clone, Copy)]
pub struct Child {
    pub context: u32,
    pub list: Option<u32>,
}

/// A list in a context.
#[derive(Clone, Copy)]
pub struct Key {
    pub context: u32,
    pub list: u32,
}

/// A list under each of these decisions, in the context that it is in.
pub fn under_each(
    alloc: Global,
    table: &mut Table,
    key: Key,
    decisions: &[u32],
) -> Result<Vec<Child>, Memory>
    requires list { IsList (formulas_of table.old) key.list }
    requires there { All (λ n. n < length table.old.decisions) decisions.now }
    ensures grows { Grows table.old table.new }
    ensures made { (cs : ContextTable) → key.context < length cs → IfOk result (λ v. AreChildren (formulas_of table.new) cs v.items
        (map (in_context (context_at cs key.context)) (under_each table.old.decisions (conjuncts_of (formulas_of table.old) key.list) decisions.now))) }
{
    let mut out = Vec::with_capacity(alloc, decisions.len())?;
    for decision in decisions {
        let next = table.under(alloc, key.list, *decision)?;
        out.push(Child {
            context: key.context,
            list: next,
        })?;
    }
    Ok(out)
}

/// Lists in a context, none of them false.
pub fn none_false(alloc: Global, context: u32, lists: &[u32]) -> Result<Vec<Child>, Memory>
    ensures { IfOk result (λ v. v.items ≡ map (child_at context) lists.now) }
{
    let mut out = Vec::with_capacity(alloc, lists.len())?;
    for list in lists {
        out.push(Child {
            context,
            list: Some(*list),
        })?;
    }
    Ok(out)
}

/// The same lists, in other contexts.
pub fn moved(alloc: Global, contexts: &[u32], children: &[Child]) -> Result<Vec<Child>, Memory>
    ensures { IfOk result (λ v. v.items ≡ moved contexts.now children.now) }
{
    let mut out = Vec::with_capacity(alloc, children.len())?;
    for (place, context) in contexts.iter().enumerate() {
        match children.get(place) {
            None => return Ok(out),
            Some(child) => out.push(Child {
                context: *context,
                list: child.list,
            })?,
        }
    }
    Ok(out)
}

//! Contexts by number: what is decided of the components that have others inside. The first one decides nothing. Equal contexts
//! have one number, but for two with one hash; that costs time alone.

ghost use Rattle.std.specs.Prelude.{◌≡◌, ◌<◌, IfOk, IfSome, length, map, true};
ghost use Rattle.sharing_laws.specs.Contexts.{first_context};
ghost use Rattle.shared_search.specs.Contexts.{AreContexts, IsContext, Keeps, context_at, entered};

use crate::sameness::is_same_context;
use control_states::{Alternative, Components};
use farkas_check::problems::undecided_cases;
use hint_index::{Index, enter, folded, hint, mixed, no_index};
use st_memory::Memory;
use std::alloc::Global;

/// More contexts aren't kept.
pub const MOST_CONTEXTS: usize = 1 << 16;

/// The contexts in order, and an index of them by hash.
#[derive(Drop)]
pub struct Contexts {
    pub kept: Vec<Vec<Option<Alternative>>>,
    pub index: Index,
}

/// The first context alone.
pub fn first_contexts(alloc: Global, components: &Components) -> Result<Contexts, Memory>
    ensures { IfOk result (λ c. IsContext c.kept.items 0 (first_context components.now)) }
{
    let first = undecided_cases(alloc, components.parts().len())?;
    let mut kept = Vec::new(alloc);
    kept.push(first)?;
    Ok(Contexts {
        kept,
        index: no_index(alloc),
    })
}

/// What a context decides.
pub fn context_at(kept: &[Vec<Option<Alternative>>], number: u32) -> &[Option<Alternative>]
    ensures { result.now ≡ context_at kept.now number }
{
    match kept.get(number as usize) {
        Some(context) => context.as_slice(),
        None => &[],
    }
}

/// Whether a number is this context's.
fn is_at(kept: &[Vec<Option<Alternative>>], number: u32, context: &[Option<Alternative>]) -> bool
    ensures { result ≡ true → IsContext kept.now number context.now }
{
    match kept.get(number as usize) {
        Some(other) => is_same_context(other.as_slice(), context),
        None => false,
    }
}

/// A hash with what is decided of a component more.
fn case_mixed(hash: u64, case: &Option<Alternative>) -> u64 {
    match case {
        None => mixed(hash, 0),
        Some(Alternative::Location(l)) => mixed(mixed(hash, 1), u64::from(*l)),
        Some(Alternative::Inside(l)) => mixed(mixed(hash, 2), u64::from(*l)),
    }
}

fn hashed(context: &[Option<Alternative>]) -> u32 {
    let mut hash = 0;
    for case in context {
        hash = case_mixed(hash, case);
    }
    folded(hash)
}

/// The number of a context, which may be a new one, or none where there are too many.
fn number_of(
    alloc: Global,
    contexts: &mut Contexts,
    context: Vec<Option<Alternative>>,
) -> Result<Option<u32>, Memory>
    ensures keeps { Keeps contexts.old.kept.items contexts.new.kept.items }
    ensures made { IfOk result (λ o. IfSome o (λ n. IsContext contexts.new.kept.items n context.items)) }
{
    let hash = hashed(context.as_slice());
    let known = hint(contexts.index.slots(), hash);
    if is_at(contexts.kept.as_slice(), known, context.as_slice()) {
        return Ok(Some(known));
    }
    let next = contexts.kept.len();
    if next > MOST_CONTEXTS {
        return Ok(None);
    }
    contexts.kept.push(context)?;
    enter(alloc, &mut contexts.index, hash, next as u32)?;
    Ok(Some(next as u32))
}

/// The number of a context in which a component is decided.
fn entered(
    alloc: Global,
    contexts: &mut Contexts,
    context: u32,
    component: u32,
    choice: Alternative,
) -> Result<Option<u32>, Memory>
    ensures keeps { Keeps contexts.old.kept.items contexts.new.kept.items }
    ensures made { IfOk result (λ o. IfSome o (λ n. IsContext contexts.new.kept.items n
        (entered (context_at contexts.old.kept.items context) component choice))) }
{
    let mut changed = Vec::from_slice(alloc, context_at(contexts.kept.as_slice(), context))?;
    if component as usize >= changed.len() {
        return Ok(None);
    }
    changed[component as usize] = Some(choice);
    number_of(alloc, contexts, changed)
}

/// The same for each alternative of the component.
pub fn entered_each(
    alloc: Global,
    contexts: &mut Contexts,
    context: u32,
    component: u32,
    choices: &[Alternative],
) -> Result<Option<Vec<u32>>, Memory>
    requires { context < length contexts.old.kept.items }
    ensures keeps { Keeps contexts.old.kept.items contexts.new.kept.items }
    ensures made { IfOk result (λ o. IfSome o (λ v. AreContexts contexts.new.kept.items v.items
        (map (entered (context_at contexts.old.kept.items context) component) choices.now))) }
{
    let mut out = Vec::with_capacity(alloc, choices.len())?;
    for choice in choices {
        match entered(alloc, contexts, context, component, *choice)? {
            None => return Ok(None),
            Some(number) => out.push(number)?,
        }
    }
    Ok(Some(out))
}

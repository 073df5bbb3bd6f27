//! A list of one item, made by one call. A reader puts what it read into a list at once: a tree by itself that it holds at
//! several ends is dear to prove, since each end drops it by all its variants.

ghost use Rattle.std.specs.Prelude.{◌≡◌, [], ◌∷◌, IfOk};

use std::alloc::{AllocError, Global};

/// The list of one item.
pub(crate) fn one<T: Drop>(alloc: Global, first: T) -> Result<Vec<T>, AllocError>
    ensures items { IfOk result (λ v. v.items ≡ first ∷ []) }
{
    let mut items = Vec::new(alloc);
    items.push(first)?;
    Ok(items)
}

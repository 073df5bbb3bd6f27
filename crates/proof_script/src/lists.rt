//! Lists of a script. Their items are read by how many stand before them, since at most 64 may be listed.

ghost use Rattle.std.specs.Prelude.{◌≡◌, ◌≤◌, IfOk, map};
ghost use Rattle.st_tokens.specs.Stream.{stream};
ghost use Rattle.st_reading.specs.Reading.{Reads, size};
ghost use Rattle.proof_script.specs.Faults.{see};
ghost use Rattle.proof_script.specs.Listing.{setting_view, further_counted, listed, bracketed};

use crate::fault::ScriptFault;
use crate::setting::Setting;
use st_reading::{Mark, advance, ahead, expect, is};
use st_tokens::Tokens;
use std::alloc::Global;

/// What is listed.
pub trait Item: Drop + Sized {
    ghost use Rattle.std.specs.Prelude.{ℕ, ◌≤◌, IfOk};
    ghost use Rattle.st_tokens.specs.Stream.{stream};
    ghost use Rattle.st_reading.specs.Reading.{Reads, size};
    ghost use Rattle.proof_script.specs.Faults.{see};
    ghost use Rattle.st_reading.specs.Breaches.{Reader};
    ghost use Rattle.proof_script.specs.Listing.{Setting, setting_view};

    ghost Plain: { Type 0 };

    ghost plainly: { Self → Plain };

    ghost spelled: { Setting → ℕ → Reader Plain };

    /// Reads an item behind so many others.
    fn read(
        alloc: Global,
        setting: &Setting<'_>,
        before: usize,
        tokens: &mut Tokens<'_>,
    ) -> Result<Self, ScriptFault>
        ensures reads { Reads see plainly result (stream tokens.new) (spelled (setting_view setting.now) before (stream tokens.old)) }
        ensures shrinks { IfOk result (λ _. size (stream tokens.new) ≤ size (stream tokens.old)) };
}

/// Reads further items, each behind the mark.
pub fn further<T: Item>(
    alloc: Global,
    setting: &Setting<'_>,
    mark: Mark,
    mut items: Vec<T>,
    tokens: &mut Tokens<'_>,
) -> Result<Vec<T>, ScriptFault>
    ensures reads { Reads see (λ v. map T.plainly v.items) result (stream tokens.new) (further_counted mark (T.spelled (setting_view setting.now)) (map T.plainly items.items) (stream tokens.old)) }
    ensures shrinks { IfOk result (λ _. size (stream tokens.new) ≤ size (stream tokens.old)) }
{
    'chain: while is(ahead(tokens), mark) {
        advance(tokens);
        let next = T::read(alloc, setting, items.len(), tokens)?;
        items.push(next)?;
    }
    Ok(items)
}

/// Reads items with the mark between them.
pub fn listed<T: Item>(
    alloc: Global,
    setting: &Setting<'_>,
    mark: Mark,
    tokens: &mut Tokens<'_>,
) -> Result<Vec<T>, ScriptFault>
    ensures reads { Reads see (λ v. map T.plainly v.items) result (stream tokens.new) (listed mark (T.spelled (setting_view setting.now)) (stream tokens.old)) }
    ensures shrinks { IfOk result (λ _. size (stream tokens.new) ≤ size (stream tokens.old)) }
{
    let first = T::read(alloc, setting, 0, tokens)?;
    let mut items = Vec::new(alloc);
    items.push(first)?;
    further(alloc, setting, mark, items, tokens)
}

/// Reads items in brackets, with semicolons between them.
pub fn bracketed<T: Item>(
    alloc: Global,
    setting: &Setting<'_>,
    tokens: &mut Tokens<'_>,
) -> Result<Vec<T>, ScriptFault>
    ensures reads { Reads see (λ v. map T.plainly v.items) result (stream tokens.new) (bracketed (T.spelled (setting_view setting.now)) (stream tokens.old)) }
    ensures shrinks { IfOk result (λ _. size (stream tokens.new) ≤ size (stream tokens.old)) }
{
    expect(tokens, Mark::OpenBlock)?;
    let items = listed(alloc, setting, Mark::Semicolon, tokens)?;
    expect(tokens, Mark::CloseBlock)?;
    Ok(items)
}

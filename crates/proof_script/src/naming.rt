//! The names of steps. The earlier ones stand in a map, so that a name costs no walk over the steps.

ghost use Rattle.std.specs.Prelude.{◌≡◌, ◌≤◌, ◌<◌, ◌^◌, IfOk, length};
ghost use Rattle.std.specs.String.{string_bytes};
ghost use Rattle.st_tokens.specs.Stream.{stream};
ghost use Rattle.st_reading.specs.declared.mark.Mark.TheVariants as marks;
ghost use Rattle.st_reading.specs.Reading.{Reads, further, size};
ghost use Rattle.st_program.specs.Names.{as_bytes};
ghost use Rattle.proof_script.specs.Faults.{see};
ghost use Rattle.proof_script.specs.Steps.{step_named, new_name_of, cited_of, citations_of};

use crate::fault::{ScriptFault, ScriptKind};
use assertions::text_of;
use indexmap::IndexMap;
use st_reading::{Mark, advance, ahead, is, name};
use st_tokens::Tokens;
use std::alloc::Global;

/// The number of the earlier step with this name, and whether it is an invariance.
fn step_named(earlier: &IndexMap<String, bool>, name: &[u8]) -> Option<(u32, bool)>
    requires { length earlier.now.entries < 2 ^ 32 }
    ensures { result ≡ step_named (as_bytes earlier.now.entries) name.now }
{
    let text = text_of(name)?;
    let number = earlier.get_index_of(text)?;
    let (_, invariance) = earlier.get_index(number)?;
    Some((number as u32, *invariance))
}

/// Reads the name of a step, which no earlier one has. The names of tokens are text, so that nothing but memory can be wanted.
#[tactic(auto, unfolding(crate::specs::Steps::new_name_of))]
pub fn new_name(
    alloc: Global,
    earlier: &IndexMap<String, bool>,
    tokens: &mut Tokens<'_>,
) -> Result<String, ScriptFault>
    ensures reads { Reads see string_bytes result (stream tokens.new) (new_name_of (as_bytes earlier.now.entries) (stream tokens.old)) }
    ensures shrinks { IfOk result (λ _. size (stream tokens.new) ≤ size (stream tokens.old)) }
{
    let name = name(tokens)?;
    let Some(text) = text_of(name.text) else {
        return Err(ScriptFault::Memory);
    };
    if earlier.contains_key(text) {
        return Err(ScriptFault::At(ScriptKind::Twice, name.place));
    }
    Ok(String::from_str(alloc, text)?)
}

/// Reads the name of an earlier invariance, and gives its number.
#[tactic(auto, unfolding(crate::specs::Steps::cited_of))]
fn cited(earlier: &IndexMap<String, bool>, tokens: &mut Tokens<'_>) -> Result<u32, ScriptFault>
    requires { length earlier.now.entries < 2 ^ 32 }
    ensures reads { Reads see (λ n. n) result (stream tokens.new) (cited_of (as_bytes earlier.now.entries) (stream tokens.old)) }
    ensures shrinks { IfOk result (λ _. size (stream tokens.new) ≤ size (stream tokens.old)) }
{
    let name = name(tokens)?;
    let Some((number, is_invariance)) = step_named(earlier, name.text) else {
        return Err(ScriptFault::At(ScriptKind::UnknownLemma, name.place));
    };
    if !is_invariance {
        return Err(ScriptFault::At(ScriptKind::NotInvariant, name.place));
    }
    Ok(number)
}

/// Further citations behind commas.
fn further_cited(
    earlier: &IndexMap<String, bool>,
    mut numbers: Vec<u32>,
    tokens: &mut Tokens<'_>,
) -> Result<Vec<u32>, ScriptFault>
    requires { length earlier.now.entries < 2 ^ 32 }
    ensures reads { Reads see (λ v. v.items) result (stream tokens.new) (further marks.Comma (cited_of (as_bytes earlier.now.entries)) numbers.items (stream tokens.old)) }
    ensures shrinks { IfOk result (λ _. size (stream tokens.new) ≤ size (stream tokens.old)) }
{
    'chain: while is(ahead(tokens), Mark::Comma) {
        advance(tokens);
        let next = cited(earlier, tokens)?;
        numbers.push(next)?;
    }
    Ok(numbers)
}

/// Reads the earlier invariances that a step cites.
#[tactic(auto, unfolding(crate::specs::Steps::citations_of))]
pub fn citations(
    alloc: Global,
    earlier: &IndexMap<String, bool>,
    tokens: &mut Tokens<'_>,
) -> Result<Vec<u32>, ScriptFault>
    requires { length earlier.now.entries < 2 ^ 32 }
    ensures reads { Reads see (λ v. v.items) result (stream tokens.new) (citations_of (as_bytes earlier.now.entries) (stream tokens.old)) }
    ensures shrinks { IfOk result (λ _. size (stream tokens.new) ≤ size (stream tokens.old)) }
{
    let mut numbers = Vec::new(alloc);
    if !is(ahead(tokens), Mark::Using) {
        return Ok(numbers);
    }
    advance(tokens);
    let first = cited(earlier, tokens)?;
    numbers.push(first)?;
    further_cited(earlier, numbers, tokens)
}

//! The text of version 2 of a table.

ghost use Rattle.std.specs.Prelude.{◌≡◌, ◌+◌, ◌++◌, [], IfOk, OnOk, map};
ghost use Rattle.cert_text.specs.Spelling.{block_text};
ghost use Rattle.certificate_unfolding.specs.Sizes.{large_at};
ghost use Rattle.certificate_unfolding.specs.Texts.{Told, Written};
ghost use Rattle.shared_certificates.specs.Nodes.{certificates, node_view, table_view, tree, trees_of};

use crate::sizes::{MOST_TREES, size_at, sizes};
use crate::trees::numbered;
use cert_text::{Block, write_block, write_header};
use shared_certificates::{Node, Table};
use st_memory::Memory;
use std::alloc::Global;
use thiserror::Error;

/// A text of version 2 has at most so many bytes.
const MOST_BYTES: usize = 268_435_456;

/// Why a table isn't unfolded.
#[derive(Clone, Copy, Debug, PartialEq, Eq, Error)]
pub enum Refusal {
    /// The certificate of this number, which counts from 0, is the first that has more than 100,000 trees.
    #[error("certificate too large")]
    Large(usize),
    /// The text has more than 268,435,456 bytes.
    #[error("text too long")]
    Long,
    /// Memory was asked for and refused.
    #[error("out of memory")]
    Memory,
}

impl From<Memory> for Refusal {
    ghost use Rattle.std.specs.Prelude.{◌≡◌};
    ghost use Rattle.certificate_unfolding.specs.declared.texts.Refusal.TheVariants.{Memory};

    ghost from_gives = { λ _ refusal. refusal ≡ Memory };

    fn from(_: Memory) -> Self {
        Refusal::Memory
    }
}

/// The first of these trees that is too large.
fn first_large(sizes: &[u32], roots: &[u32]) -> Option<usize>
    ensures { result ≡ large_at sizes.now 0 roots.now }
{
    for (i, root) in roots.iter().enumerate() {
        if size_at(sizes, *root) > MOST_TREES {
            return Some(i);
        }
    }
    None
}

/// What counts from 0, as it counts in the text.
fn number_of(index: usize) -> Result<u32, Memory>
    ensures { IfOk result (λ n. n ≡ index + 1) }
{
    match u32::try_from(index) {
        Ok(index) => match index.checked_add(1) {
            Some(number) => Ok(number),
            None => Err(Memory),
        },
        Err(_) => Err(Memory),
    }
}

/// The block of a number's tree.
fn push_block(
    alloc: Global,
    out: &mut Vec<u8>,
    nodes: &[Node],
    index: usize,
    root: u32,
) -> Result<(), Memory>
    ensures { OnOk result (out.new.items ≡ out.old.items ++ block_text (index + 1) (tree (trees_of [] (map node_view nodes.now)) root)) }
{
    let block = Block {
        number: number_of(index)?,
        certificate: numbered(alloc, nodes, root)?,
    };
    write_block(alloc, &block, out)
}

/// The blocks of these trees, as long as the text isn't too long.
fn blocks(alloc: Global, nodes: &[Node], roots: &[u32]) -> Result<Vec<u8>, Refusal>
    ensures { Written result (map (tree (trees_of [] (map node_view nodes.now))) roots.now) }
{
    let mut out = Vec::new(alloc);
    write_header(alloc, &mut out)?;
    for (i, root) in roots.iter().enumerate() {
        push_block(alloc, &mut out, nodes, i, *root)?;
        if out.len() > MOST_BYTES {
            return Err(Refusal::Long);
        }
    }
    Ok(out)
}

/// The text of version 2 that has the certificates of a table, or why there is none.
pub fn version_2(alloc: Global, table: &Table) -> Result<Vec<u8>, Refusal>
    ensures { Told result (certificates (table_view table.now)) }
{
    let nodes = table.nodes.as_slice();
    let roots = table.roots.as_slice();
    let sizes = sizes(alloc, nodes)?;
    match first_large(sizes.as_slice(), roots) {
        Some(index) => Err(Refusal::Large(index)),
        None => blocks(alloc, nodes, roots),
    }
}

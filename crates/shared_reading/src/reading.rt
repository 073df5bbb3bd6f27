//! Texts of version 3, read line by line.

ghost use Rattle.std.specs.Prelude.{◌≡◌, ◌-◌, ◌≤◌, length, map, slice_index_or};
ghost use Rattle.shared_certificates.specs.Lines.{lines, words};
ghost use Rattle.shared_certificates.specs.Nodes.{node_view, nothing_shared, table_view};
ghost use Rattle.shared_certificates.specs.Reading.{cert_line, greatest, header_read, judged, level, line_read, lines_read, next, text_read, tree_line};
ghost use Rattle.shared_certificates.specs.Views.{bytes_of};
ghost use Rattle.shared_certificates.specs.Answers.{Gives, Leaves, Told};

use crate::lines::front_line;
use crate::numbers::{index, reference};
use crate::trees::node;
use crate::words::{is, words};
use shared_certificates::{Fault, Node, Refusal, Table};
use st_memory::Memory;
use std::alloc::Global;

/// A tree has at most so many levels.
const MOST_LEVELS: u64 = 400;

/// The number is the next one.
fn next(count: usize, word: &[u8]) -> Result<(), Refusal>
    ensures { Gives (λ u. u) result (next count word.now) }
{
    let n = index(word)?;
    if n as usize == count {
        Ok(())
    } else {
        Err(Refusal::Malformed)
    }
}

/// How many levels a tree has; 0 where there is none.
fn levels_at(levels: &[u32], number: u32) -> u32
    ensures { result ≡ slice_index_or levels.now number 0 }
{
    match levels.get(number as usize) {
        Some(count) => *count,
        None => 0,
    }
}

/// The most levels of some trees.
fn greatest(levels: &[u32], parts: &[u32]) -> u32
    ensures { result ≡ greatest levels.now parts.now }
{
    let mut most = 0;
    for part in parts {
        most = levels_at(levels, *part).max(most);
    }
    most
}

fn level(levels: &[u32], node: &Node) -> u64
    ensures { result ≡ level levels.now (node_view node.now) }
{
    match node {
        Node::Absurd => 1,
        Node::Farkas(_) => 1,
        Node::Linear(_) => 1,
        Node::Branch(_, parts) => 1 + u64::from(greatest(levels, parts.as_slice())),
    }
}

/// A tree more, unless it has too many levels.
pub fn add(table: &mut Table, node: Node) -> Result<(), Refusal>
    ensures { Leaves (table_view table.new) result (judged (table_view table.old) (node_view node)) }
{
    let levels = level(table.levels.as_slice(), &node);
    if levels > MOST_LEVELS {
        return Err(Refusal::Limit);
    }
    table.nodes.push(node)?;
    table.levels.push(levels as u32)?;
    Ok(())
}

fn tree_line(alloc: Global, table: &mut Table, words: &[&[u8]]) -> Result<(), Refusal>
    ensures { Leaves (table_view table.new) result (tree_line (table_view table.old) (map bytes_of words.now)) }
{
    let [number, others @ ..] = words else {
        return Err(Refusal::Malformed);
    };
    let count = table.nodes.len();
    next(count, number)?;
    let node = node(alloc, count, others)?;
    add(table, node)
}

fn cert_line(table: &mut Table, words: &[&[u8]]) -> Result<(), Refusal>
    ensures { Leaves (table_view table.new) result (cert_line (table_view table.old) (map bytes_of words.now)) }
{
    match words {
        [number, root] => {
            next(table.roots.len(), number)?;
            let root = reference(table.nodes.len(), root)?;
            table.roots.push(root)?;
            Ok(())
        }
        [] => Err(Refusal::Malformed),
        [_] => Err(Refusal::Malformed),
        [_, _, _, ..] => Err(Refusal::Malformed),
    }
}

/// The words of a line more.
#[tactic(auto, unfolding(shared_certificates::specs::Reading::line_read))]
fn line_of_words(alloc: Global, table: &mut Table, words: &[&[u8]]) -> Result<(), Refusal>
    ensures { Leaves (table_view table.new) result (line_read (table_view table.old) (map bytes_of words.now)) }
{
    match words {
        [] => Ok(()),
        [name, others @ ..] => {
            if is(name, b"tree") {
                tree_line(alloc, table, others)
            } else if is(name, b"cert") {
                cert_line(table, others)
            } else {
                Err(Refusal::Malformed)
            }
        }
    }
}

/// A line more.
fn line(alloc: Global, table: &mut Table, line: &[u8]) -> Result<(), Refusal>
    ensures { Leaves (table_view table.new) result (line_read (table_view table.old) (words line.now)) }
{
    let words = words(alloc, line)?;
    line_of_words(alloc, table, words.as_slice())
}

fn header(alloc: Global, line: &[u8]) -> Result<(), Refusal>
    ensures { Gives (λ u. u) result (header_read (words line.now)) }
{
    let words = words(alloc, line)?;
    match words.as_slice() {
        [version, number] => {
            if is(version, b"version") && is(number, b"3") {
                Ok(())
            } else {
                Err(Refusal::Malformed)
            }
        }
        [] => Err(Refusal::Malformed),
        [_] => Err(Refusal::Malformed),
        [_, _, _, ..] => Err(Refusal::Malformed),
    }
}

/// Whether a text begins with the header.
pub fn has_header(alloc: Global, text: &[u8]) -> Result<bool, Memory> {
    if text.is_empty() {
        return Ok(false);
    }
    match header(alloc, front_line(text).0) {
        Ok(()) => Ok(true),
        Err(Refusal::Malformed) => Ok(false),
        Err(Refusal::Limit) => Ok(false),
        Err(Refusal::Memory) => Err(Memory),
    }
}

/// The lines of the rest of a text, behind those of a table.
fn read_lines(alloc: Global, text: &[u8], behind: &[u8], before: Table) -> Result<Table, Fault>
    requires { length behind.now ≤ length text.now }
    ensures { Told result (lines_read (length text.now - length behind.now) (table_view before) (lines behind.now)) }
{
    let mut table = before;
    let mut rest = behind;
    'lines: while !rest.is_empty() {
        let (front, after) = front_line(rest);
        if let Err(refusal) = line(alloc, &mut table, front) {
            let place = text.len() - rest.len();
            return Err(Fault { refusal, place });
        }
        rest = after;
    }
    Ok(table)
}

/// The trees and certificates of a text, or its first line that isn't taken.
pub fn read(alloc: Global, text: &[u8]) -> Result<Table, Fault>
    ensures { Told result (text_read (lines text.now)) }
{
    if text.is_empty() {
        return Err(Fault {
            refusal: Refusal::Malformed,
            place: 0,
        });
    }
    let (front, behind) = front_line(text);
    if let Err(refusal) = header(alloc, front) {
        return Err(Fault { refusal, place: 0 });
    }
    let table = Table {
        nodes: Vec::new(alloc),
        levels: Vec::new(alloc),
        roots: Vec::new(alloc),
    };
    read_lines(alloc, text, behind, table)
}

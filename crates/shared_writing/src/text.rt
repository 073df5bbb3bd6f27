//! The lines of trees and certificates.

ghost use Rattle.std.specs.Prelude.{◌≡◌, ◌+◌, ◌++◌, ◌∷◌, [], IfOk, OnOk, codes, map};
ghost use Rattle.shared_certificates.specs.Grammar.{cert_words, line_word, node_words, number_word, pick_word, step_words, term_word, tree_words};
ghost use Rattle.shared_certificates.specs.Nodes.{node_view, step_view, table_view};
ghost use Rattle.shared_writing.specs.Writing.{cert_lines, line_text, spaced, text_of, tree_lines};

use crate::words::{push_int, push_line, push_number, push_pick, push_term, push_text};
use shared_certificates::{Node, Step, Table};
use st_memory::Memory;
use std::alloc::Global;

fn push_picks(out: &mut Vec<u8>, picks: &[(u32, u64)]) -> Result<(), Memory>
    ensures { OnOk result (out.new.items ≡ out.old.items ++ spaced (map pick_word picks.now)) }
{
    for pick in picks {
        push_text(out, b" ")?;
        push_pick(out, pick)?;
    }
    Ok(())
}

fn push_lines(out: &mut Vec<u8>, lines: &[(u32, i64)]) -> Result<(), Memory>
    ensures { OnOk result (out.new.items ≡ out.old.items ++ spaced (map line_word lines.now)) }
{
    for line in lines {
        push_text(out, b" ")?;
        push_line(out, line)?;
    }
    Ok(())
}

fn push_terms(out: &mut Vec<u8>, terms: &[(u32, i128)]) -> Result<(), Memory>
    ensures { OnOk result (out.new.items ≡ out.old.items ++ spaced (map term_word terms.now)) }
{
    for term in terms {
        push_text(out, b" ")?;
        push_term(out, term)?;
    }
    Ok(())
}

fn push_parts(out: &mut Vec<u8>, parts: &[u32]) -> Result<(), Memory>
    ensures { OnOk result (out.new.items ≡ out.old.items ++ spaced (map number_word parts.now)) }
{
    for part in parts {
        push_text(out, b" ")?;
        push_number(out, *part)?;
    }
    Ok(())
}

fn push_named(out: &mut Vec<u8>, name: &[u8], number: u32) -> Result<(), Memory>
    ensures { OnOk result (out.new.items ≡ out.old.items ++ (name.now ++ 32 ∷ number_word number)) }
{
    push_text(out, name)?;
    push_text(out, b" ")?;
    push_number(out, number)
}

fn push_step(out: &mut Vec<u8>, step: &Step) -> Result<(), Memory>
    ensures { OnOk result (out.new.items ≡ out.old.items ++ spaced (step_words (step_view step.now))) }
{
    match step {
        Step::Case(component) => push_named(out, b" case", *component),
        Step::Truth(variable) => push_named(out, b" bool", *variable),
        Step::Split(disjunction) => push_named(out, b" split", *disjunction),
        Step::Cut(form) => {
            push_text(out, b" cut ")?;
            push_int(out, &form.constant())?;
            push_terms(out, form.entries())
        }
    }
}

/// A division, and the parts behind its colon.
fn push_branch(out: &mut Vec<u8>, step: &Step, parts: &[u32]) -> Result<(), Memory>
    ensures { OnOk result (out.new.items ≡ out.old.items ++ spaced (step_words (step_view step.now) ++ codes ":" ∷ map number_word parts.now)) }
{
    push_step(out, step)?;
    push_text(out, b" :")?;
    push_parts(out, parts)
}

fn push_node(out: &mut Vec<u8>, node: &Node) -> Result<(), Memory>
    ensures { OnOk result (out.new.items ≡ out.old.items ++ spaced (node_words (node_view node.now))) }
{
    match node {
        Node::Absurd => push_text(out, b" absurd"),
        Node::Farkas(picks) => {
            push_text(out, b" farkas")?;
            push_picks(out, picks.as_slice())
        }
        Node::Linear(lines) => {
            push_text(out, b" linear")?;
            push_lines(out, lines.as_slice())
        }
        Node::Branch(step, parts) => push_branch(out, step, parts.as_slice()),
    }
}

fn push_tree(out: &mut Vec<u8>, number: u32, node: &Node) -> Result<(), Memory>
    ensures { OnOk result (out.new.items ≡ out.old.items ++ line_text (tree_words number (node_view node.now))) }
{
    push_text(out, b"tree ")?;
    push_number(out, number)?;
    push_node(out, node)?;
    push_text(out, b"\n")
}

fn push_cert(out: &mut Vec<u8>, number: u32, root: u32) -> Result<(), Memory>
    ensures { OnOk result (out.new.items ≡ out.old.items ++ line_text (cert_words number root)) }
{
    push_text(out, b"cert ")?;
    push_number(out, number)?;
    push_text(out, b" ")?;
    push_number(out, root)?;
    push_text(out, b"\n")
}

/// A count as the number of the next, where it isn't too large.
fn number_of(count: usize) -> Result<u32, Memory>
    ensures { IfOk result (λ n. n ≡ count) }
{
    match u32::try_from(count) {
        Ok(number) => Ok(number),
        Err(_) => Err(Memory),
    }
}

fn push_trees(out: &mut Vec<u8>, nodes: &[Node]) -> Result<(), Memory>
    ensures { OnOk result (out.new.items ≡ out.old.items ++ tree_lines 0 (map node_view nodes.now)) }
{
    for (i, node) in nodes.iter().enumerate() {
        push_tree(out, number_of(i)?, node)?;
    }
    Ok(())
}

fn push_certs(out: &mut Vec<u8>, roots: &[u32]) -> Result<(), Memory>
    ensures { OnOk result (out.new.items ≡ out.old.items ++ cert_lines 0 roots.now) }
{
    for (i, root) in roots.iter().enumerate() {
        push_cert(out, number_of(i)?, *root)?;
    }
    Ok(())
}

/// The text of a table. Want of memory is also answered where it has 2^32 trees or certificates and more.
pub fn write(alloc: Global, table: &Table) -> Result<Vec<u8>, Memory>
    ensures { IfOk result (λ v. v.items ≡ text_of (table_view table.now)) }
{
    let mut out = Vec::new(alloc);
    push_text(&mut out, b"version 3\n")?;
    push_trees(&mut out, table.nodes.as_slice())?;
    push_certs(&mut out, table.roots.as_slice())?;
    Ok(out)
}

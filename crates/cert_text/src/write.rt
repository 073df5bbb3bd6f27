//! Blocks are written in their one spelling.

ghost use Rattle.std.specs.Prelude.{◌≡◌, ◌+◌, ◌-◌, ◌<◌, ◌≤◌, ◌^◌, ◌%◌, ◌++◌, ◌∷◌, [], OnOk, OnErr, IfOk, length, map, codes, unsigned_abs};
ghost use Rattle.st_certificate.specs.Plain.{plain};
ghost use Rattle.st_certificate.specs.Tree.{trees as trees_of};
ghost use Rattle.cert_text.specs.Spelling.{digits_in, decimal, int_text, picks_text, lines_text, terms_text, tree_text, trees_text, block_text, head_text, cut_text};

use crate::reader::Block;
use st_certificate::Certificate;
use st_linear::Lin;
use st_memory::Memory;
use std::alloc::Global;

fn push_digit(out: &mut Vec<u8>, n: u128) -> Result<(), Memory>
    ensures { OnOk result (out.new.items ≡ out.old.items ++ (48 + n % 10) ∷ []) }
{
    out.push(48 + (n % 10) as u8)?;
    Ok(())
}

#[tactic(auto, using(crate::proofs::Digits::digit_steps))]
/// Appends the last `left` digits of a number and those that it needs.
fn push_digits(out: &mut Vec<u8>, left: u32, n: u128) -> Result<(), Memory>
    ensures { OnOk result (out.new.items ≡ out.old.items ++ digits_in left n) }
{
    if left == 0 {
        push_digit(out, n)
    } else if n < 10 {
        push_digit(out, n)
    } else {
        push_digits(out, left - 1, n / 10)?;
        push_digit(out, n)
    }
}

#[tactic(auto, unfolding(crate::specs::Spelling::decimal))]
fn push_number(out: &mut Vec<u8>, n: u128) -> Result<(), Memory>
    ensures { OnOk result (out.new.items ≡ out.old.items ++ decimal n) }
{
    push_digits(out, 39, n)
}

fn push_text(out: &mut Vec<u8>, text: &[u8]) -> Result<(), Memory>
    ensures { OnOk result (out.new.items ≡ out.old.items ++ text.now) }
{
    out.extend_from_slice(text)?;
    Ok(())
}

fn push_int(out: &mut Vec<u8>, n: &i128) -> Result<(), Memory>
    ensures { OnOk result (out.new.items ≡ out.old.items ++ int_text n.now) }
{
    if *n < 0 {
        push_text(out, b"-")?;
    }
    push_number(out, n.unsigned_abs())
}

fn push_picks(out: &mut Vec<u8>, picks: &[(u32, u64)]) -> Result<(), Memory>
    ensures { OnOk result (out.new.items ≡ out.old.items ++ picks_text picks.now) }
{
    let mut first = true;
    for pick in picks {
        if !first {
            push_text(out, b", ")?;
        }
        first = false;
        push_number(out, u128::from(pick.0) + 1)?;
        push_text(out, b"*")?;
        push_number(out, u128::from(pick.1))?;
    }
    Ok(())
}

fn push_lines(out: &mut Vec<u8>, lines: &[(u32, i64)]) -> Result<(), Memory>
    ensures { OnOk result (out.new.items ≡ out.old.items ++ lines_text lines.now) }
{
    let mut first = true;
    for line in lines {
        if !first {
            push_text(out, b", ")?;
        }
        first = false;
        push_number(out, u128::from(line.0) + 1)?;
        push_text(out, b"*")?;
        push_small_int(out, &line.1)?;
    }
    Ok(())
}

fn push_small_int(out: &mut Vec<u8>, n: &i64) -> Result<(), Memory>
    ensures { OnOk result (out.new.items ≡ out.old.items ++ int_text n.now) }
{
    if *n < 0 {
        push_text(out, b"-")?;
    }
    push_number(out, u128::from(n.unsigned_abs()))
}

fn push_terms(out: &mut Vec<u8>, terms: &[(u32, i128)]) -> Result<(), Memory>
    ensures { OnOk result (out.new.items ≡ out.old.items ++ terms_text terms.now) }
{
    let mut first = true;
    for term in terms {
        if !first {
            push_text(out, b", ")?;
        }
        first = false;
        push_int(out, &term.1)?;
        push_text(out, b":")?;
        push_number(out, u128::from(term.0) + 1)?;
    }
    Ok(())
}

fn push_head(out: &mut Vec<u8>, word: &[u8], n: u32) -> Result<(), Memory>
    ensures { OnOk result (out.new.items ≡ out.old.items ++ head_text word.now n) }
{
    push_text(out, word)?;
    push_number(out, u128::from(n) + 1)?;
    push_text(out, b" { ")
}

#[cycle(write)]
#[tactic(auto, using(st_certificate::proofs::Nodes::all_nodes))]
fn push_tree(out: &mut Vec<u8>, tree: &Certificate) -> Result<(), Memory>
    ensures { OnOk result (out.new.items ≡ out.old.items ++ tree_text (plain tree.now)) }
{
    match tree {
        Certificate::Absurd => push_text(out, b"absurd"),
        Certificate::Farkas(picks) => {
            push_text(out, b"farkas [")?;
            push_picks(out, picks)?;
            push_text(out, b"]")
        }
        Certificate::Linear(lines) => {
            push_text(out, b"linear [")?;
            push_lines(out, lines)?;
            push_text(out, b"]")
        }
        Certificate::Case(n, trees) => {
            push_head(out, b"case ", *n)?;
            push_trees(out, trees)?;
            push_text(out, b"}")
        }
        Certificate::Bool(n, trees) => {
            push_head(out, b"bool ", *n)?;
            push_trees(out, trees)?;
            push_text(out, b"}")
        }
        Certificate::Split(n, trees) => {
            push_head(out, b"split ", *n)?;
            push_trees(out, trees)?;
            push_text(out, b"}")
        }
        Certificate::Cut(f, trees) => {
            push_cut(out, f)?;
            push_trees(out, trees)?;
            push_text(out, b"}")
        }
    }
}

fn push_cut(out: &mut Vec<u8>, f: &Lin) -> Result<(), Memory>
    ensures { OnOk result (out.new.items ≡ out.old.items ++ cut_text f.now) }
{
    let constant = f.constant();
    push_text(out, b"cut [")?;
    push_terms(out, f.entries())?;
    push_text(out, b"; ")?;
    push_int(out, &constant)?;
    push_text(out, b"] { ")
}

#[cycle(write)]
fn push_trees(out: &mut Vec<u8>, trees: &[Certificate]) -> Result<(), Memory>
    ensures { OnOk result (out.new.items ≡ out.old.items ++ trees_text (trees_of (map plain trees.now))) }
{
    for tree in trees {
        push_tree(out, tree)?;
        push_text(out, b" ")?;
    }
    Ok(())
}

fn push_block(out: &mut Vec<u8>, block: &Block) -> Result<(), Memory>
    ensures { OnOk result (out.new.items ≡ out.old.items ++ block_text block.now.number (plain block.now.certificate)) }
{
    push_text(out, b"cert ")?;
    push_number(out, u128::from(block.number))?;
    push_text(out, b" ")?;
    push_tree(out, &block.certificate)?;
    push_text(out, b";\n")
}

/// Appends the one spelling of a block.
pub fn write_block(alloc: Global, block: &Block, out: &mut Vec<u8>) -> Result<(), Memory>
    ensures ok { OnOk result (out.new.items ≡ out.old.items ++ block_text block.now.number (plain block.now.certificate)) }
    ensures err { OnErr result (out.new.items ≡ out.old.items) }
{
    let mut text = Vec::new(alloc);
    push_block(&mut text, block)?;
    out.extend_from_slice(text.as_slice())?;
    Ok(())
}

/// Appends the header of a text of version 2.
pub fn write_header(_alloc: Global, out: &mut Vec<u8>) -> Result<(), Memory>
    ensures ok { OnOk result (out.new.items ≡ out.old.items ++ codes "version 2;\n") }
    ensures err { OnErr result (out.new.items ≡ out.old.items) }
{
    out.extend_from_slice(b"version 2;\n")?;
    Ok(())
}

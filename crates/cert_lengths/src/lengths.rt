//! The room behind each part of a block, in the order in which the parts are written. In a contract `-` ends at 0.

ghost use Rattle.std.specs.Prelude.{◌≡◌, ◌-◌, length, map, codes};
ghost use Rattle.st_certificate.specs.Plain.{plain};
ghost use Rattle.st_certificate.specs.Tree.{trees as trees_of};
ghost use Rattle.cert_text.specs.Spelling.{digits_in, decimal, int_text, picks_text, lines_text, terms_text, tree_text, trees_text, block_text, head_text, cut_text};

use st_certificate::Certificate;
use st_linear::Lin;

#[tactic(auto, using(crate::proofs::Sums::digits))]
fn behind_digits(room: usize, left: u32, n: u128) -> usize
    ensures { result ≡ room - length (digits_in left n) }
{
    if left == 0 {
        room.saturating_sub(1)
    } else if n < 10 {
        room.saturating_sub(1)
    } else {
        behind_digits(room, left - 1, n / 10).saturating_sub(1)
    }
}

#[tactic(auto, unfolding(cert_text::specs::Spelling::decimal))]
fn behind_number(room: usize, n: u128) -> usize
    ensures { result ≡ room - length (decimal n) }
{
    behind_digits(room, 39, n)
}

#[tactic(auto, using(crate::proofs::Sums::sums))]
fn behind_int(room: usize, n: &i128) -> usize
    ensures { result ≡ room - length (int_text n.now) }
{
    let behind = behind_number(room, n.unsigned_abs());
    if *n < 0 {
        behind.saturating_sub(1)
    } else {
        behind
    }
}

#[tactic(auto, using(crate::proofs::Sums::sums))]
fn behind_small_int(room: usize, n: &i64) -> usize
    ensures { result ≡ room - length (int_text n.now) }
{
    let behind = behind_number(room, u128::from(n.unsigned_abs()));
    if *n < 0 {
        behind.saturating_sub(1)
    } else {
        behind
    }
}

#[tactic(auto, using(crate::proofs::Sums::sums))]
fn behind_picks(room: usize, picks: &[(u32, u64)]) -> usize
    ensures { result ≡ room - length (picks_text picks.now) }
{
    let mut room = room;
    let mut first = true;
    for pick in picks {
        if !first {
            room = room.saturating_sub(2);
        }
        first = false;
        room = behind_number(room, u128::from(pick.0) + 1);
        room = behind_number(room.saturating_sub(1), u128::from(pick.1));
    }
    room
}

#[tactic(auto, using(crate::proofs::Sums::sums))]
fn behind_lines(room: usize, lines: &[(u32, i64)]) -> usize
    ensures { result ≡ room - length (lines_text lines.now) }
{
    let mut room = room;
    let mut first = true;
    for line in lines {
        if !first {
            room = room.saturating_sub(2);
        }
        first = false;
        room = behind_number(room, u128::from(line.0) + 1);
        room = behind_small_int(room.saturating_sub(1), &line.1);
    }
    room
}

#[tactic(auto, using(crate::proofs::Sums::sums))]
fn behind_terms(room: usize, terms: &[(u32, i128)]) -> usize
    ensures { result ≡ room - length (terms_text terms.now) }
{
    let mut room = room;
    let mut first = true;
    for term in terms {
        if !first {
            room = room.saturating_sub(2);
        }
        first = false;
        room = behind_int(room, &term.1);
        room = behind_number(room.saturating_sub(1), u128::from(term.0) + 1);
    }
    room
}

#[tactic(auto, using(crate::proofs::Sums::sums))]
fn behind_head(room: usize, word: &[u8], n: u32) -> usize
    ensures { result ≡ room - length (head_text word.now n) }
{
    behind_number(room.saturating_sub(word.len()), u128::from(n) + 1).saturating_sub(3)
}

#[tactic(auto, using(crate::proofs::Sums::sums))]
fn behind_cut(room: usize, f: &Lin) -> usize
    ensures { result ≡ room - length (cut_text f.now) }
{
    let behind = behind_terms(room.saturating_sub(5), f.entries());
    behind_int(behind.saturating_sub(2), &f.constant()).saturating_sub(4)
}

#[cycle(lengths)]
#[tactic(auto, using(st_certificate::proofs::Nodes::all_nodes, crate::proofs::Sums::sums))]
fn behind_tree(room: usize, tree: &Certificate) -> usize
    ensures { result ≡ room - length (tree_text (plain tree.now)) }
{
    match tree {
        Certificate::Absurd => room.saturating_sub(6),
        Certificate::Farkas(picks) => {
            behind_picks(room.saturating_sub(8), picks).saturating_sub(1)
        }
        Certificate::Linear(lines) => {
            behind_lines(room.saturating_sub(8), lines).saturating_sub(1)
        }
        Certificate::Case(n, trees) => {
            behind_trees(behind_head(room, b"case ", *n), trees).saturating_sub(1)
        }
        Certificate::Bool(n, trees) => {
            behind_trees(behind_head(room, b"bool ", *n), trees).saturating_sub(1)
        }
        Certificate::Split(n, trees) => {
            behind_trees(behind_head(room, b"split ", *n), trees).saturating_sub(1)
        }
        Certificate::Cut(f, trees) => { behind_trees(behind_cut(room, f), trees).saturating_sub(1) }
    }
}

#[cycle(lengths)]
#[tactic(auto, using(crate::proofs::Sums::sums))]
fn behind_trees(room: usize, trees: &[Certificate]) -> usize
    ensures { result ≡ room - length (trees_text (trees_of (map plain trees.now))) }
{
    let mut room = room;
    for tree in trees {
        room = behind_tree(room, tree).saturating_sub(1);
    }
    room
}

/// What is left of a room behind the one spelling of a block; 0 where the block is longer.
#[tactic(auto, using(crate::proofs::Sums::sums))]
pub fn room_behind_block(room: usize, number: u32, certificate: &Certificate) -> usize
    ensures { result ≡ room - length (block_text number (plain certificate.now)) }
{
    let behind = behind_number(room.saturating_sub(5), u128::from(number));
    behind_tree(behind.saturating_sub(1), certificate).saturating_sub(2)
}

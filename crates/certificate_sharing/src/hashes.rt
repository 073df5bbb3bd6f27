//! Hashes of nodes. They are hints alone: what has the same hash is compared.

use hint_index::{folded, line_mixed, mixed};
use shared_certificates::{Node, Step};

fn step_mixed(hash: u64, step: &Step) -> u64 {
    match step {
        Step::Case(component) => mixed(mixed(hash, 4), u64::from(*component)),
        Step::Truth(variable) => mixed(mixed(hash, 5), u64::from(*variable)),
        Step::Split(disjunction) => mixed(mixed(hash, 6), u64::from(*disjunction)),
        Step::Cut(form) => line_mixed(mixed(hash, 7), form),
    }
}

fn picks_mixed(hash: u64, picks: &[(u32, u64)]) -> u64 {
    let mut hash = mixed(hash, 2);
    for pick in picks {
        hash = mixed(mixed(hash, u64::from(pick.0)), pick.1);
    }
    hash
}

fn lines_mixed(hash: u64, lines: &[(u32, i64)]) -> u64 {
    let mut hash = mixed(hash, 3);
    for line in lines {
        let sign = u64::from(line.1 < 0);
        hash = mixed(
            mixed(mixed(hash, u64::from(line.0)), sign),
            line.1.unsigned_abs(),
        );
    }
    hash
}

fn parts_mixed(hash: u64, parts: &[u32]) -> u64 {
    let mut hash = hash;
    for part in parts {
        hash = mixed(hash, u64::from(*part));
    }
    hash
}

pub fn node_hash(node: &Node) -> u32 {
    match node {
        Node::Absurd => folded(mixed(0, 1)),
        Node::Farkas(picks) => folded(picks_mixed(0, picks.as_slice())),
        Node::Linear(lines) => folded(lines_mixed(0, lines.as_slice())),
        Node::Branch(step, parts) => folded(parts_mixed(step_mixed(0, step), parts.as_slice())),
    }
}

//! What may stand next in a block, by numbers alone: nothing here takes memory.

ghost use Rattle.std.specs.Prelude.{◌≡◌, ◌+◌, false, true};
ghost use Rattle.cert_text.specs.Control.{only_sign, next_want, behind, at_block, at_header_number, at_block_number, at_tree, tree_begun, is_full, at_subject, at_row, at_multiplier, at_negative, at_more_picks, at_coefficient, at_variable, at_more_terms, at_constant, entered, give};
ghost use Rattle.cert_text.specs.declared.scan.Action.TheVariants as actions;
ghost use Rattle.cert_text.specs.declared.scan.Given.TheVariants as givens;
ghost use Rattle.cert_text.specs.declared.scan.Want.TheVariants as wants;

use crate::cuts::{
    at_coefficient, at_colon, at_constant, at_constant_end, at_more_terms, at_terms, at_variable,
};
use crate::picks::{at_more_picks, at_multiplier, at_negative, at_picks, at_row, at_times};
use crate::scan::{
    Action, Branching, Given, MAX_DEPTH, MAX_NUMBER, MAX_TREES, Scan, Token, Want, Word,
};

/// The token is this sign, and then there is this.
pub fn only_sign(token: Token, sign: u8, given: Given) -> Given
    ensures { result ≡ only_sign token sign given }
{
    match token {
        Token::Word(_) => Given::Wrong,
        Token::Number(_) => Given::Wrong,
        Token::Sign(c) => { if c == sign { given } else { Given::Wrong } }
    }
}

/// The next token, with nothing to build.
pub fn next_want(scan: Scan, want: Want) -> Given
    ensures { result ≡ next_want scan want }
{
    Given::On(Scan { want, ..scan }, Action::Nothing)
}

/// What stands behind a whole tree at this depth.
pub fn behind(scan: Scan, depth: u32, action: Action) -> Given
    ensures { result ≡ behind scan depth action }
{
    if depth == 0 {
        Given::On(
            Scan {
                want: Want::End,
                depth,
                ..scan
            },
            action,
        )
    } else {
        Given::On(
            Scan {
                want: Want::Tree { end: true },
                depth,
                ..scan
            },
            action,
        )
    }
}

pub fn at_block(scan: Scan, header: bool, token: Token) -> Given
    ensures { result ≡ at_block scan header token }
{
    match token {
        Token::Word(Word::Cert) => next_want(scan, Want::BlockNumber),
        Token::Word(Word::Version) => {
            if header {
                next_want(scan, Want::HeaderNumber)
            } else {
                Given::Wrong
            }
        }
        _ => Given::Wrong,
    }
}

pub fn at_header_number(scan: Scan, token: Token) -> Given
    ensures { result ≡ at_header_number scan token }
{
    match token {
        Token::Number(n) => {
            if n == 2 {
                next_want(scan, Want::HeaderEnd)
            } else {
                Given::Wrong
            }
        }
        _ => Given::Wrong,
    }
}

pub fn at_header_end(scan: Scan, token: Token) -> Given
    ensures { result ≡ only_sign token 59 (givens.On (record scan { want = wants.Block false; second = true }) actions.Nothing) }
{
    only_sign(
        token,
        b';',
        Given::On(
            Scan {
                want: Want::Block { header: false },
                second: true,
                ..scan
            },
            Action::Nothing,
        ),
    )
}

pub fn at_block_number(scan: Scan, token: Token) -> Given
    ensures { result ≡ at_block_number scan token }
{
    match token {
        Token::Number(n) => {
            if n == u64::from(scan.number) {
                next_want(scan, Want::Tree { end: false })
            } else {
                Given::Wrong
            }
        }
        _ => Given::Wrong,
    }
}

/// No further tree may begin here.
pub fn is_full(scan: Scan) -> bool
    ensures { result ≡ is_full scan }
{
    scan.trees >= MAX_TREES || scan.depth >= MAX_DEPTH
}

/// A tree has begun with a word, if the limits allow one.
pub fn tree_begun(scan: Scan, want: Want) -> Given
    ensures { result ≡ tree_begun scan want }
{
    if is_full(scan) {
        Given::Over
    } else {
        Given::On(
            Scan {
                want,
                trees: scan.trees + 1,
                ..scan
            },
            Action::Nothing,
        )
    }
}

pub fn at_tree(scan: Scan, end: bool, token: Token) -> Given
    ensures { result ≡ at_tree scan end token }
{
    match token {
        Token::Word(Word::Absurd) => {
            if is_full(scan) {
                Given::Over
            } else {
                behind(
                    Scan {
                        trees: scan.trees + 1,
                        ..scan
                    },
                    scan.depth,
                    Action::Absurd,
                )
            }
        }
        Token::Word(Word::Farkas) => tree_begun(scan, Want::Picks { signed: false }),
        Token::Word(Word::Linear) => {
            if scan.second {
                tree_begun(scan, Want::Picks { signed: true })
            } else {
                Given::Wrong
            }
        }
        Token::Word(Word::Case) => tree_begun(scan, Want::Subject(Branching::Case)),
        Token::Word(Word::Truth) => tree_begun(scan, Want::Subject(Branching::Truth)),
        Token::Word(Word::Split) => tree_begun(scan, Want::Subject(Branching::Split)),
        Token::Word(Word::Cut) => tree_begun(scan, Want::Terms),
        Token::Sign(b'}') => {
            if end && scan.depth > 0 {
                behind(scan, scan.depth - 1, Action::Leave)
            } else {
                Given::Wrong
            }
        }
        _ => Given::Wrong,
    }
}

pub fn at_subject(scan: Scan, branching: Branching, token: Token) -> Given
    ensures { result ≡ at_subject scan branching token }
{
    match token {
        Token::Number(n) => {
            if n == 0 {
                Given::Wrong
            } else if n > MAX_NUMBER {
                Given::Over
            } else {
                next_want(scan, Want::Branches(branching, n as u32))
            }
        }
        _ => Given::Wrong,
    }
}

/// Inside the braces of a node.
pub fn entered(scan: Scan, action: Action) -> Given
    ensures { result ≡ entered scan action }
{
    if scan.depth >= MAX_DEPTH {
        Given::Over
    } else {
        Given::On(
            Scan {
                want: Want::Tree { end: false },
                depth: scan.depth + 1,
                ..scan
            },
            action,
        )
    }
}

/// The braces of a node open.
pub fn at_braces(scan: Scan, action: Action, token: Token) -> Given
    ensures { result ≡ only_sign token 123 (entered scan action) }
{
    only_sign(token, b'{', entered(scan, action))
}

/// The scan behind a token, and what the token adds.
pub fn give(scan: Scan, token: Token) -> Given
    ensures { result ≡ give scan token }
{
    match scan.want {
        Want::Block { header } => at_block(scan, header, token),
        Want::HeaderNumber => at_header_number(scan, token),
        Want::HeaderEnd => at_header_end(scan, token),
        Want::BlockNumber => at_block_number(scan, token),
        Want::Tree { end } => at_tree(scan, end, token),
        Want::Subject(branching) => at_subject(scan, branching, token),
        Want::Branches(branching, n) => at_braces(scan, Action::Enter(branching, n), token),
        Want::Picks { signed } => at_picks(scan, signed, token),
        Want::Row { signed, count } => at_row(scan, signed, count, token),
        Want::Times { signed, count, row } => at_times(scan, signed, count, row, token),
        Want::Multiplier { signed, count, row } => at_multiplier(scan, signed, count, row, token),
        Want::Negative { count, row } => at_negative(scan, true, true, count, row, token),
        Want::MorePicks { signed, count } => at_more_picks(scan, signed, count, token),
        Want::Terms => at_terms(scan, token),
        Want::Coefficient {
            first,
            negative,
            last,
        } => at_coefficient(scan, first, negative, last, token),
        Want::Colon {
            negative,
            size,
            last,
        } => at_colon(scan, negative, size, last, token),
        Want::Variable {
            negative,
            size,
            last,
        } => at_variable(scan, negative, size, last, token),
        Want::MoreTerms { last } => at_more_terms(scan, last, token),
        Want::Constant { negative } => at_constant(scan, negative, token),
        Want::ConstantEnd { negative, size } => at_constant_end(scan, negative, size, token),
        Want::CutBranches { negative, size } => {
            at_braces(scan, Action::Cut { negative, size }, token)
        }
        Want::End => only_sign(token, b';', next_want(scan, Want::Whole)),
        Want::Whole => Given::Wrong,
    }
}

//! The picks of a leaf.

ghost use Rattle.std.specs.Prelude.{◌≡◌, ◌+◌};
ghost use Rattle.cert_text.specs.Control.{only_sign, next_want, behind, at_row, at_multiplier, at_negative, at_more_picks, picks_closed};
ghost use Rattle.cert_text.specs.declared.scan.Want.TheVariants as wants;

use crate::control::{behind, next_want, only_sign};
use crate::scan::{Action, Given, MAX_NUMBER, MAX_PICKS, MULTIPLIER_END, Scan, Token, Want};

pub fn at_picks(scan: Scan, signed: bool, token: Token) -> Given
    ensures { result ≡ only_sign token 91 (next_want scan (wants.Row signed 0)) }
{
    only_sign(token, b'[', next_want(scan, Want::Row { signed, count: 0 }))
}

pub fn at_row(scan: Scan, signed: bool, count: u32, token: Token) -> Given
    ensures { result ≡ at_row scan signed count token }
{
    match token {
        Token::Number(n) => {
            if n == 0 {
                Given::Wrong
            } else if n > MAX_NUMBER || count >= MAX_PICKS {
                Given::Over
            } else {
                next_want(
                    scan,
                    Want::Times {
                        signed,
                        count: count + 1,
                        row: n as u32,
                    },
                )
            }
        }
        _ => Given::Wrong,
    }
}

pub fn at_times(scan: Scan, signed: bool, count: u32, row: u32, token: Token) -> Given
    ensures { result ≡ only_sign token 42 (next_want scan (wants.Multiplier signed count row)) }
{
    only_sign(
        token,
        b'*',
        next_want(scan, Want::Multiplier { signed, count, row }),
    )
}

pub fn at_negative(
    scan: Scan,
    signed: bool,
    negative: bool,
    count: u32,
    row: u32,
    token: Token,
) -> Given
    ensures { result ≡ at_negative scan signed negative count row token }
{
    match token {
        Token::Number(n) => {
            if n >= MULTIPLIER_END {
                Given::Over
            } else {
                Given::On(
                    Scan {
                        want: Want::MorePicks { signed, count },
                        ..scan
                    },
                    Action::Pick {
                        signed,
                        row,
                        negative,
                        size: n,
                    },
                )
            }
        }
        _ => Given::Wrong,
    }
}

pub fn at_multiplier(scan: Scan, signed: bool, count: u32, row: u32, token: Token) -> Given
    ensures { result ≡ at_multiplier scan signed count row token }
{
    match token {
        Token::Sign(b'-') => {
            if signed {
                next_want(scan, Want::Negative { count, row })
            } else {
                Given::Wrong
            }
        }
        _ => at_negative(scan, signed, false, count, row, token),
    }
}

pub fn picks_closed(signed: bool) -> Action
    ensures { result ≡ picks_closed signed }
{
    if signed {
        Action::Linear
    } else {
        Action::Farkas
    }
}

pub fn at_more_picks(scan: Scan, signed: bool, count: u32, token: Token) -> Given
    ensures { result ≡ at_more_picks scan signed count token }
{
    match token {
        Token::Sign(b',') => next_want(scan, Want::Row { signed, count }),
        Token::Sign(b']') => behind(scan, scan.depth, picks_closed(signed)),
        _ => Given::Wrong,
    }
}

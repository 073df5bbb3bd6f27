//! The form of a cut.

ghost use Rattle.std.specs.Prelude.{◌≡◌, ◌<◌, false, true};
ghost use Rattle.cert_text.specs.Control.{only_sign, next_want, at_coefficient, at_variable, at_more_terms, at_constant};
ghost use Rattle.cert_text.specs.declared.scan.Want.TheVariants as wants;

use crate::control::{next_want, only_sign};
use crate::scan::{Action, Given, MAX_ENTRY, MAX_NUMBER, Scan, Token, Want};

pub fn at_terms(scan: Scan, token: Token) -> Given
    ensures { result ≡ only_sign token 91 (next_want scan (wants.Coefficient true false 0)) }
{
    only_sign(
        token,
        b'[',
        next_want(
            scan,
            Want::Coefficient {
                first: true,
                negative: false,
                last: 0,
            },
        ),
    )
}

pub fn at_coefficient(scan: Scan, first: bool, negative: bool, last: u32, token: Token) -> Given
    ensures { result ≡ at_coefficient scan first negative last token }
{
    match token {
        Token::Number(n) => {
            if n == 0 {
                Given::Wrong
            } else if n > MAX_ENTRY {
                Given::Over
            } else {
                next_want(
                    scan,
                    Want::Colon {
                        negative,
                        size: n,
                        last,
                    },
                )
            }
        }
        Token::Sign(b'-') => {
            if negative {
                Given::Wrong
            } else {
                next_want(
                    scan,
                    Want::Coefficient {
                        first: false,
                        negative: true,
                        last,
                    },
                )
            }
        }
        Token::Sign(b';') => {
            if first {
                next_want(scan, Want::Constant { negative: false })
            } else {
                Given::Wrong
            }
        }
        _ => Given::Wrong,
    }
}

pub fn at_colon(scan: Scan, negative: bool, size: u64, last: u32, token: Token) -> Given
    ensures { result ≡ only_sign token 58 (next_want scan (wants.Variable negative size last)) }
{
    only_sign(
        token,
        b':',
        next_want(
            scan,
            Want::Variable {
                negative,
                size,
                last,
            },
        ),
    )
}

pub fn at_variable(scan: Scan, negative: bool, size: u64, last: u32, token: Token) -> Given
    ensures { result ≡ at_variable scan negative size last token }
{
    match token {
        Token::Number(n) => {
            if n <= u64::from(last) {
                Given::Wrong
            } else if n > MAX_NUMBER {
                Given::Over
            } else {
                Given::On(
                    Scan {
                        want: Want::MoreTerms { last: n as u32 },
                        ..scan
                    },
                    Action::Term {
                        variable: n as u32,
                        negative,
                        size,
                    },
                )
            }
        }
        _ => Given::Wrong,
    }
}

pub fn at_more_terms(scan: Scan, last: u32, token: Token) -> Given
    ensures { result ≡ at_more_terms scan last token }
{
    match token {
        Token::Sign(b',') => next_want(
            scan,
            Want::Coefficient {
                first: false,
                negative: false,
                last,
            },
        ),
        Token::Sign(b';') => next_want(scan, Want::Constant { negative: false }),
        _ => Given::Wrong,
    }
}

pub fn at_constant(scan: Scan, negative: bool, token: Token) -> Given
    ensures { result ≡ at_constant scan negative token }
{
    match token {
        Token::Number(n) => {
            if n > MAX_ENTRY {
                Given::Over
            } else {
                next_want(scan, Want::ConstantEnd { negative, size: n })
            }
        }
        Token::Sign(b'-') => {
            if negative {
                Given::Wrong
            } else {
                next_want(scan, Want::Constant { negative: true })
            }
        }
        _ => Given::Wrong,
    }
}

pub fn at_constant_end(scan: Scan, negative: bool, size: u64, token: Token) -> Given
    ensures { result ≡ only_sign token 93 (next_want scan (wants.CutBranches negative size)) }
{
    only_sign(
        token,
        b']',
        next_want(scan, Want::CutBranches { negative, size }),
    )
}

//! What a token is, apart from its place: a name, a numeral, or the mark that its bytes spell. Keywords stand in groups, as in
//! their definition.

ghost use Rattle.std.specs.Prelude.{◌≡◌};
ghost use Rattle.st_tokens.specs.Stream.{lexeme};
ghost use Rattle.st_reading.specs.Breaches.{numeral_in};
ghost use Rattle.st_reading.specs.Reading.{is_name};
ghost use Rattle.st_reading.specs.Sign.{sign_of, symbol_sign, word_sign, word_mark, or_else, declaring_word, basic_word, compound_word, step_word, rule_word, drawing_word, is};

use crate::mark::{Mark, same};
use st_tokens::{Token, TokenKind, value_of};

/// What a token is, apart from its place.
#[derive(Clone, Copy, Debug)]
pub enum Sign {
    Name,
    Numeral(u32),
    Marked(Mark),
    Other,
    /// No token stands there: the text ends, or a token fault comes.
    Nothing,
}

/// Whether it is that mark.
pub fn is(sign: Sign, wanted: Mark) -> bool
    ensures { result ≡ is sign wanted }
{
    match sign {
        Sign::Marked(mark) => same(mark, wanted),
        _ => false,
    }
}

/// Whether it is a name.
pub fn is_name(sign: Sign) -> bool
    ensures { result ≡ is_name sign }
{
    matches!(sign, Sign::Name)
}

/// The number of a numeral.
pub fn numeral_in(sign: Sign) -> Option<u32>
    ensures { result ≡ numeral_in sign }
{
    match sign {
        Sign::Numeral(number) => Some(number),
        _ => None,
    }
}

fn symbol_sign(text: &[u8]) -> Sign
    ensures { result ≡ symbol_sign text.now }
{
    match text {
        [b'('] => Sign::Marked(Mark::Open),
        [b')'] => Sign::Marked(Mark::Close),
        [b'['] => Sign::Marked(Mark::OpenBlock),
        [b']'] => Sign::Marked(Mark::CloseBlock),
        [b'{'] => Sign::Marked(Mark::OpenBrace),
        [b'}'] => Sign::Marked(Mark::CloseBrace),
        [b'<', b'<'] => Sign::Marked(Mark::OpenGroup),
        [b'>', b'>'] => Sign::Marked(Mark::CloseGroup),
        [b':'] => Sign::Marked(Mark::Colon),
        [b':', b':'] => Sign::Marked(Mark::Colons),
        [b';'] => Sign::Marked(Mark::Semicolon),
        [b','] => Sign::Marked(Mark::Comma),
        [b'.'] => Sign::Marked(Mark::Dot),
        [b':', b'='] => Sign::Marked(Mark::Becomes),
        [b'|', b'|'] => Sign::Marked(Mark::Bars),
        [b'/', b'\\'] => Sign::Marked(Mark::And),
        [b'\\', b'/'] => Sign::Marked(Mark::Or),
        [b'~'] => Sign::Marked(Mark::Not),
        [b'-', b'>'] => Sign::Marked(Mark::Implies),
        [b'=', b'=', b'>'] => Sign::Marked(Mark::Unless),
        [b'='] => Sign::Marked(Mark::Equal),
        [b'!', b'='] => Sign::Marked(Mark::Unequal),
        [b'<'] => Sign::Marked(Mark::Less),
        [b'<', b'='] => Sign::Marked(Mark::AtMost),
        [b'>'] => Sign::Marked(Mark::Greater),
        [b'>', b'='] => Sign::Marked(Mark::AtLeast),
        [b'+'] => Sign::Marked(Mark::Plus),
        [b'-'] => Sign::Marked(Mark::Minus),
        [b'*'] => Sign::Marked(Mark::Times),
        _ => Sign::Other,
    }
}

#[tactic(auto, unfolding(crate::specs::Sign::declaring_word))]
fn declaring_word(text: &[u8]) -> Option<Mark>
    ensures { result ≡ declaring_word text.now }
{
    if text == b"in".as_slice() {
        Some(Mark::In)
    } else if text == b"local".as_slice() {
        Some(Mark::Local)
    } else if text == b"out".as_slice() {
        Some(Mark::Out)
    } else if text == b"where".as_slice() {
        Some(Mark::Where)
    } else if text == b"integer".as_slice() {
        Some(Mark::Integer)
    } else if text == b"boolean".as_slice() {
        Some(Mark::Boolean)
    } else if text == b"true".as_slice() {
        Some(Mark::True)
    } else if text == b"false".as_slice() {
        Some(Mark::False)
    } else if text == b"at".as_slice() {
        Some(Mark::At)
    } else {
        None
    }
}

#[tactic(auto, unfolding(crate::specs::Sign::basic_word))]
fn basic_word(text: &[u8]) -> Option<Mark>
    ensures { result ≡ basic_word text.now }
{
    if text == b"skip".as_slice() {
        Some(Mark::Skip)
    } else if text == b"await".as_slice() {
        Some(Mark::Await)
    } else if text == b"request".as_slice() {
        Some(Mark::Request)
    } else if text == b"release".as_slice() {
        Some(Mark::Release)
    } else if text == b"noncritical".as_slice() {
        Some(Mark::Noncritical)
    } else if text == b"critical".as_slice() {
        Some(Mark::Critical)
    } else if text == b"if".as_slice() {
        Some(Mark::If)
    } else if text == b"then".as_slice() {
        Some(Mark::Then)
    } else if text == b"else".as_slice() {
        Some(Mark::Else)
    } else if text == b"fi".as_slice() {
        Some(Mark::Fi)
    } else {
        None
    }
}

#[tactic(auto, unfolding(crate::specs::Sign::compound_word))]
fn compound_word(text: &[u8]) -> Option<Mark>
    ensures { result ≡ compound_word text.now }
{
    if text == b"while".as_slice() {
        Some(Mark::While)
    } else if text == b"loop".as_slice() {
        Some(Mark::Loop)
    } else if text == b"forever".as_slice() {
        Some(Mark::Forever)
    } else if text == b"do".as_slice() {
        Some(Mark::Do)
    } else if text == b"select".as_slice() {
        Some(Mark::Select)
    } else if text == b"or".as_slice() {
        Some(Mark::Either)
    } else if text == b"cobegin".as_slice() {
        Some(Mark::Cobegin)
    } else if text == b"coend".as_slice() {
        Some(Mark::Coend)
    } else {
        None
    }
}

#[tactic(auto, unfolding(crate::specs::Sign::step_word))]
fn step_word(text: &[u8]) -> Option<Mark>
    ensures { result ≡ step_word text.now }
{
    if text == b"invariant".as_slice() {
        Some(Mark::Invariant)
    } else if text == b"waiting".as_slice() {
        Some(Mark::Waiting)
    } else if text == b"wait".as_slice() {
        Some(Mark::Wait)
    } else if text == b"response".as_slice() {
        Some(Mark::Response)
    } else if text == b"leads".as_slice() {
        Some(Mark::Leads)
    } else if text == b"within".as_slice() {
        Some(Mark::Within)
    } else if text == b"by".as_slice() {
        Some(Mark::By)
    } else if text == b"using".as_slice() {
        Some(Mark::Using)
    } else {
        None
    }
}

#[tactic(auto, unfolding(crate::specs::Sign::rule_word))]
fn rule_word(text: &[u8]) -> Option<Mark>
    ensures { result ≡ rule_word text.now }
{
    if text == b"just".as_slice() {
        Some(Mark::Just)
    } else if text == b"chain".as_slice() {
        Some(Mark::Chain)
    } else if text == b"ranked".as_slice() {
        Some(Mark::Ranked)
    } else if text == b"fair".as_slice() {
        Some(Mark::Fair)
    } else if text == b"net".as_slice() {
        Some(Mark::Net)
    } else if text == b"base".as_slice() {
        Some(Mark::Base)
    } else if text == b"delay".as_slice() {
        Some(Mark::Delay)
    } else if text == b"top".as_slice() {
        Some(Mark::Top)
    } else {
        None
    }
}

#[tactic(auto, unfolding(crate::specs::Sign::drawing_word))]
fn drawing_word(text: &[u8]) -> Option<Mark>
    ensures { result ≡ drawing_word text.now }
{
    if text == b"group".as_slice() {
        Some(Mark::Group)
    } else if text == b"helper".as_slice() {
        Some(Mark::Helper)
    } else if text == b"rank".as_slice() {
        Some(Mark::Rank)
    } else if text == b"diagram".as_slice() {
        Some(Mark::Diagram)
    } else if text == b"terminal".as_slice() {
        Some(Mark::Terminal)
    } else if text == b"node".as_slice() {
        Some(Mark::Node)
    } else if text == b"edge".as_slice() {
        Some(Mark::Edge)
    } else if text == b"on".as_slice() {
        Some(Mark::On)
    } else {
        None
    }
}

/// The first of two marks.
fn or_else(first: Option<Mark>, second: Option<Mark>) -> Option<Mark>
    ensures { result ≡ or_else first second }
{
    match first {
        Some(mark) => Some(mark),
        None => second,
    }
}

fn word_mark(text: &[u8]) -> Option<Mark>
    ensures { result ≡ word_mark text.now }
{
    let of_proof = or_else(
        step_word(text),
        or_else(rule_word(text), drawing_word(text)),
    );
    let of_statement = or_else(basic_word(text), or_else(compound_word(text), of_proof));
    or_else(declaring_word(text), of_statement)
}

fn word_sign(text: &[u8]) -> Sign
    ensures { result ≡ word_sign text.now }
{
    match word_mark(text) {
        Some(mark) => Sign::Marked(mark),
        None => Sign::Other,
    }
}

pub fn sign_of(token: &Token) -> Sign
    ensures { result ≡ sign_of (lexeme token.now) }
{
    match token.kind {
        TokenKind::Name => Sign::Name,
        TokenKind::Keyword => word_sign(token.text),
        TokenKind::Symbol => symbol_sign(token.text),
        TokenKind::Numeral => match value_of(token.text) {
            Some(n) => Sign::Numeral(n),
            None => Sign::Other,
        },
    }
}

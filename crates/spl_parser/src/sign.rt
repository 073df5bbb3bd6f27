//! What begins a statement, a declaration or a type.

ghost use Rattle.std.specs.Prelude.{◌≡◌};
ghost use Rattle.expression_parser.specs.Signs.{at_mark};
ghost use Rattle.spl_parser.specs.Signs.{basic_start, nested_starts, start, is_inner, begins, mode, kind};

use st_reading::{Mark, Sign, is};

/// What stands at the front of a statement.
#[derive(Clone, Copy, Debug)]
pub enum Start {
    Named,
    Listed,
    Skip,
    Critical,
    Noncritical,
    Await,
    Request,
    Release,
    If,
    While,
    Loop,
    Block,
    Select,
    Cooperate,
    Group,
}

fn nested_start(sign: Sign) -> Option<Start>
    ensures { result ≡ at_mark sign nested_starts }
{
    if is(sign, Mark::If) {
        Some(Start::If)
    } else if is(sign, Mark::While) {
        Some(Start::While)
    } else if is(sign, Mark::Loop) {
        Some(Start::Loop)
    } else if is(sign, Mark::OpenBlock) {
        Some(Start::Block)
    } else if is(sign, Mark::Select) {
        Some(Start::Select)
    } else if is(sign, Mark::Cobegin) {
        Some(Start::Cooperate)
    } else if is(sign, Mark::OpenGroup) {
        Some(Start::Group)
    } else {
        None
    }
}

fn basic_start(sign: Sign) -> Option<Start>
    ensures { result ≡ basic_start sign }
{
    if is(sign, Mark::Open) {
        Some(Start::Listed)
    } else if is(sign, Mark::Skip) {
        Some(Start::Skip)
    } else if is(sign, Mark::Critical) {
        Some(Start::Critical)
    } else if is(sign, Mark::Noncritical) {
        Some(Start::Noncritical)
    } else if is(sign, Mark::Await) {
        Some(Start::Await)
    } else if is(sign, Mark::Request) {
        Some(Start::Request)
    } else if is(sign, Mark::Release) {
        Some(Start::Release)
    } else {
        nested_start(sign)
    }
}

/// What stands at the front of a statement, where one begins.
pub fn start_of(sign: Sign) -> Option<Start>
    ensures { result ≡ start sign }
{
    match sign {
        Sign::Name => Some(Start::Named),
        _ => basic_start(sign),
    }
}

fn is_inner(start: Start) -> bool
    ensures { result ≡ is_inner start }
{
    matches!(
        start,
        Start::Named | Start::Listed | Start::Skip | Start::Await | Start::If | Start::Block
    )
}

/// Whether a statement, inside a group where `grouped`, begins so.
pub fn begins(grouped: bool, start: Option<Start>) -> bool
    ensures { result ≡ begins grouped start }
{
    match start {
        None => false,
        Some(start) => !grouped || is_inner(start),
    }
}

/// Whether a declaration begins, and then whether it is one of inputs.
pub fn mode(sign: Sign) -> Option<bool>
    ensures { result ≡ mode sign }
{
    if is(sign, Mark::In) {
        Some(true)
    } else if is(sign, Mark::Local) || is(sign, Mark::Out) {
        Some(false)
    } else {
        None
    }
}

/// Whether a type stands there, and then whether it is that of truth values.
pub fn kind(sign: Sign) -> Option<bool>
    ensures { result ≡ kind sign }
{
    if is(sign, Mark::Boolean) {
        Some(true)
    } else if is(sign, Mark::Integer) {
        Some(false)
    } else {
        None
    }
}

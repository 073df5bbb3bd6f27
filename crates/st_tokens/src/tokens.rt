//! The tokens of a text, one after the other. The next one is kept, so no byte is looked at twice.

ghost use Rattle.std.specs.Prelude.{◌≡◌, ◌≤◌, length};

use crate::front::front;
use crate::kind::{Front, Token, TokenFault};

/// The tokens of a lent text, from some place on.
#[derive(Clone, Copy, Debug)]
pub struct Tokens<'a> {
    next: Result<Option<Token<'a>>, TokenFault>,
    rest: &'a [u8],
    end: u64,
    ghost in_range: { length rest.now ≤ end },
}

impl<'a> Tokens<'a> {
    ghost use Rattle.st_tokens.specs.Stream.{lex, stream, text_stream, end_of, Answers, behind};

    /// All tokens of the text.
    pub fn new(text: &'a [u8]) -> Tokens<'a>
        ensures tokens { stream result ≡ text_stream text.now }
        ensures end { end_of result ≡ length text.now }
    {
        Tokens::scan(text, text.len() as u64)
    }

    /// The text's length.
    pub fn end(&self) -> u64
        ensures { result ≡ end_of self.now }
    {
        self.end
    }

    /// The tokens of what is left of a text whose length is `end`.
    fn scan(text: &'a [u8], end: u64) -> Tokens<'a>
        requires { length text.now ≤ end }
        ensures tokens { stream result ≡ lex end 0 text.now }
        ensures end { end_of result ≡ end }
    {
        let mut rest = text;
        'blanks: while !rest.is_empty() {
            let start = end - rest.len() as u64;
            match front(rest) {
                Front::Blank(n) => rest = rest.split_at(n).1,
                Front::Whole(kind, n) => {
                    let (text, after) = rest.split_at(n);
                    let next = Ok(Some(Token { kind, text, start }));
                    return Tokens {
                        next,
                        rest: after,
                        end,
                    };
                }
                Front::Bad => {
                    let next = Err(TokenFault::BadByte(start));
                    return Tokens { next, rest, end };
                }
                Front::Long => {
                    let next = Err(TokenFault::LongNumber(start));
                    return Tokens { next, rest, end };
                }
            }
        }
        Tokens {
            next: Ok(None),
            rest,
            end,
        }
    }

    /// What `next` would answer.
    pub fn peek(&self) -> Result<Option<Token<'a>>, TokenFault>
        ensures { Answers (end_of self.now) result (stream self.now) }
    {
        self.next
    }

    /// The next token. Behind the last one and at a fault nothing moves, so that the answer stays the same.
    pub fn next(&mut self) -> Result<Option<Token<'a>>, TokenFault>
        ensures answer { Answers (end_of self.old) result (stream self.old) }
        ensures moves { stream self.new ≡ behind (stream self.old) }
        ensures end { end_of self.new ≡ end_of self.old }
    {
        match self.next {
            Ok(Some(token)) => {
                *self = Tokens::scan(self.rest, self.end);
                Ok(Some(token))
            }
            Ok(None) => Ok(None),
            Err(fault) => Err(fault),
        }
    }
}

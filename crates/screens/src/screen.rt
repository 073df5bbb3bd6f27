//! A text that grows, with inks for a terminal. Escapes are those of ECMA-48 (*Control Functions for Coded Character Sets*,
//! section 8.3.117, SGR). What is told goes through `character`, so a screen steers a terminal by its inks alone.

ghost use Rattle.std.specs.Prelude.{◌≡◌, false};
ghost use Rattle.std.specs.String.{string_bytes};
ghost use Rattle.screens.specs.Tame.{steers, IsInk, IsScreen};

use st_memory::Memory;
use std::alloc::Global;
use unicode_width::UnicodeWidthChar;

/// How a screen is written: whether in colours, and in how many columns.
#[derive(Clone, Copy, Debug)]
pub struct Style {
    pub colour: bool,
    pub width: usize,
}

/// What a stretch of text is.
#[derive(Clone, Copy, Debug, PartialEq, Eq)]
pub(crate) enum Ink {
    Plain,
    Bad,
    Good,
    Bold,
    Rule,
}

fn code(ink: Ink) -> &'static str
    ensures { IsInk result.now }
{
    match ink {
        Ink::Plain => "\x1b[0m",
        Ink::Bad => "\x1b[1;31m",
        Ink::Good => "\x1b[1;32m",
        Ink::Bold => "\x1b[1m",
        Ink::Rule => "\x1b[1;34m",
    }
}

/// Whether a character steers a terminal, or the direction of what stands behind it.
fn steers(character: char) -> bool
    ensures { result ≡ steers character }
{
    let code = character as u32;
    code < 32
        || (127 <= code && code < 160)
        || (0x202a <= code && code <= 0x202e)
        || (0x2066 <= code && code <= 0x2069)
}

/// A character as it is shown: a tab as a blank, and what would steer a terminal as `?`.
pub fn shown(character: char) -> char
    ensures { steers result ≡ false }
{
    if character == '\t' {
        ' '
    } else if steers(character) {
        '?'
    } else {
        character
    }
}

/// How many columns a character takes as it is shown.
pub(crate) fn breadth(character: char) -> usize {
    shown(character).width().unwrap_or(0)
}

/// How many columns a text takes as it is shown.
pub(crate) fn columns(text: &str) -> usize {
    let mut columns: usize = 0;
    for character in text.chars() {
        columns = columns.saturating_add(breadth(character));
    }
    columns
}

/// A screen that is being written. It is tame: no character of what is told steers a terminal.
#[derive(Drop)]
pub(crate) struct Screen {
    pub(crate) alloc: Global,
    out: String,
    pub(crate) style: Style,
    ghost tame: { ∥ IsScreen (string_bytes out) ∥₁ },
}

impl Screen {
    pub(crate) fn new(alloc: Global, style: Style) -> Screen {
        Screen {
            alloc,
            out: String::new(alloc),
            style,
        }
    }

    /// What was written.
    pub(crate) fn finish(self) -> String
        ensures { ∥ IsScreen (string_bytes result) ∥₁ }
    {
        self.out
    }

    /// Appends a character as it is shown.
    pub(crate) fn character(&mut self, character: char) -> Result<(), Memory> {
        self.out.push(shown(character))?;
        Ok(())
    }

    /// Turns to an ink.
    fn dip(&mut self, ink: Ink) -> Result<(), Memory> {
        self.out.push_str(code(ink))?;
        Ok(())
    }

    /// Appends a text as it is shown.
    pub(crate) fn text(&mut self, text: &str) -> Result<(), Memory> {
        for character in text.chars() {
            self.character(character)?;
        }
        Ok(())
    }

    /// Appends a text in an ink.
    pub(crate) fn ink(&mut self, ink: Ink, text: &str) -> Result<(), Memory> {
        if !self.style.colour || ink == Ink::Plain {
            return self.text(text);
        }
        self.dip(ink)?;
        self.text(text)?;
        self.dip(Ink::Plain)
    }

    /// Ends a line.
    pub(crate) fn end(&mut self) -> Result<(), Memory> {
        self.out.push('\n')?;
        Ok(())
    }

    pub(crate) fn blanks(&mut self, count: usize) -> Result<(), Memory> {
        for _ in 0..count {
            self.character(' ')?;
        }
        Ok(())
    }

    /// Appends a text and blanks up to so many columns, and two more.
    pub(crate) fn cell(&mut self, text: &str, width: usize) -> Result<(), Memory> {
        self.text(text)?;
        self.blanks(width.saturating_sub(columns(text)).saturating_add(2))
    }

    /// Appends a remark: a line behind `=`.
    pub(crate) fn remark(&mut self, text: &str) -> Result<(), Memory> {
        self.blanks(5)?;
        self.ink(Ink::Rule, "=")?;
        self.text(" ")?;
        self.text(text)?;
        self.end()
    }

    /// Appends the rule in front of an empty line of a text.
    pub(crate) fn gap(&mut self) -> Result<(), Memory> {
        self.ink(Ink::Rule, "     |")?;
        self.end()
    }
}

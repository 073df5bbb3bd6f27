//! A page while it is written. What is written as markup is the program's own: a constant text. All else is escaped.

use html_escapes::push_escaped;
use itoa::Buffer;
use st_memory::Memory;
use std::alloc::Global;

/// The bytes of a page.
#[derive(Drop)]
pub(crate) struct Page {
    bytes: Vec<u8>,
}

impl Page {
    pub(crate) fn new(alloc: Global) -> Page {
        Page {
            bytes: Vec::new(alloc),
        }
    }

    /// Appends markup.
    pub(crate) fn markup(&mut self, markup: &'static str) -> Result<(), Memory> {
        self.bytes.extend_from_slice(markup.as_bytes())?;
        Ok(())
    }

    /// Appends the bytes of a text.
    pub(crate) fn bytes(&mut self, text: &[u8]) -> Result<(), Memory> {
        push_escaped(&mut self.bytes, text)
    }

    /// Appends a text.
    pub(crate) fn text(&mut self, text: &str) -> Result<(), Memory> {
        self.bytes(text.as_bytes())
    }

    /// Appends a number.
    pub(crate) fn number(&mut self, number: u64) -> Result<(), Memory> {
        let mut buffer = Buffer::new();
        self.bytes
            .extend_from_slice(buffer.format(number).as_bytes())?;
        Ok(())
    }

    /// Appends a text between two pieces of markup.
    pub(crate) fn inside(
        &mut self,
        before: &'static str,
        text: &str,
        behind: &'static str,
    ) -> Result<(), Memory> {
        self.markup(before)?;
        self.text(text)?;
        self.markup(behind)
    }

    /// Appends a sentence, in which what stands between two backticks is code.
    pub(crate) fn sentence(&mut self, sentence: &str) -> Result<(), Memory> {
        let mut code = false;
        for piece in sentence.split('`') {
            if code {
                self.inside("<code>", piece, "</code>")?;
            } else {
                self.text(piece)?;
            }
            code = !code;
        }
        Ok(())
    }

    /// The finished bytes.
    pub(crate) fn finish(self) -> Vec<u8> {
        self.bytes
    }
}

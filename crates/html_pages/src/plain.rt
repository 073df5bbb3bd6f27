//! A page that shows a text as it is, as a refusal.

use crate::frame::{push_end, push_head, push_headline};
use crate::page::Page;
use st_memory::Memory;
use std::alloc::Global;

/// The page of a text under a title; `good` says whether it is good news.
pub fn text_page(alloc: Global, title: &str, good: bool, text: &[u8]) -> Result<Vec<u8>, Memory> {
    let mut page = Page::new(alloc);
    push_head(&mut page, title)?;
    push_headline(&mut page, good, title)?;
    page.markup("<main><section><pre>")?;
    page.bytes(text)?;
    page.markup("</pre></section></main>\n")?;
    push_end(&mut page)?;
    Ok(page.finish())
}

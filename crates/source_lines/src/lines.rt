//! A text by its lines. Where the line feeds stand is found once, so that the line of a place is found by halving.

ghost use Rattle.std.specs.Prelude.{◌≡◌, ◌+◌, ◌≤◌, ◌<◌, ◌-◌, ℕ, length, take, drop, not, IfOk, nat_lt};
ghost use Rattle.std.specs.List.{prefix_len};
ghost use Rattle.source_lines.specs.Lines.{is_feed, feeds, feeds_from, behind_feeds, position_in, line_in};

use crate::units::{Units, reach, total};
use st_memory::Memory;
use std::alloc::Global;

/// A text and where its line feeds stand. Places are byte offsets from 0, and one past the end stands for the end.
#[derive(Drop)]
pub struct Lines<'a> {
    text: &'a [u8],
    feeds: Vec<usize>,
    ghost found: { feeds.items ≡ feeds_from 0 text.now },
}

/// Where a place is.
#[derive(Clone, Copy, Debug, PartialEq, Eq)]
pub struct Position {
    /// The number of the line, from 1.
    pub line: usize,
    /// The number of the character in its line, from 1.
    pub column: usize,
    /// How many code units of UTF-16 stand before it in its line.
    pub utf16: usize,
}

/// Where the line feeds stand.
fn feeds_of(alloc: Global, text: &[u8]) -> Result<Vec<usize>, Memory>
    ensures { IfOk result (λ feeds. feeds.items ≡ feeds_from 0 text.now) }
{
    let mut feeds = Vec::new(alloc);
    for (place, byte) in text.iter().enumerate() {
        if *byte == b'\n' {
            feeds.push(place)?;
        }
    }
    Ok(feeds)
}

/// How many line feeds stand before a place.
fn feeds_before(text: &[u8], found: &[usize], place: usize) -> usize
    requires { found.now ≡ feeds_from 0 text.now }
    ensures { result ≡ feeds (take place text.now) }
{
    found.partition_point(
        |feed: &usize| -> bool
            ensures { result ≡ nat_lt feed.now place }
        { *feed < place },
    )
}

/// The place behind so many line feeds, or the end.
fn begin(text: &[u8], found: &[usize], number: usize) -> usize
    requires { found.now ≡ feeds_from 0 text.now }
    ensures is { drop result text.now ≡ behind_feeds number text.now }
    ensures within { result ≤ length text.now }
{
    let end = text.len();
    if number == 0 {
        0
    } else if number <= found.len() {
        found[number - 1] + 1
    } else {
        end
    }
}

/// How many bytes stand before the first line feed.
fn line_len(text: &[u8]) -> usize
    ensures is { result ≡ prefix_len (λ b. not (is_feed b)) text.now }
    ensures within { result ≤ length text.now }
{
    text.iter().take_while(|byte| **byte != b'\n').count()
}

impl<'a> Lines<'a> {
    ghost use Rattle.source_lines.specs.declared.units.Units.TheVariants.{Characters, CodeUnits};
    ghost use Rattle.source_lines.specs.Places.{text_of, IsBehind};

    /// The lines of a text, which need not be UTF-8.
    pub fn new(alloc: Global, text: &'a [u8]) -> Result<Lines<'a>, Memory>
        ensures { IfOk result (λ lines. text_of lines ≡ text.now) }
    {
        let feeds = feeds_of(alloc, text)?;
        Ok(Lines { text, feeds })
    }

    /// The number of the last line; behind a line feed at the end stands an empty one.
    pub fn count(&self) -> usize
        ensures { result ≡ 1 + feeds (text_of self.now) }
    {
        self.feeds.len() + 1
    }

    /// The line with this number, without its line feed; behind the last line nothing.
    pub fn line(&self, number: usize) -> &'a [u8]
        ensures { result.now ≡ line_in (text_of self.now) number }
    {
        let begin = begin(self.text, &self.feeds, number.saturating_sub(1));
        let rest = self.text.split_at(begin).1;
        rest.split_at(line_len(rest)).0
    }

    /// Where a place is: its line is 1 and the line feeds before it, its column 1 and the characters before it in its line.
    pub fn position(&self, place: u64) -> Position
        ensures { result ≡ position_in (text_of self.now) place }
    {
        let place = (place as usize).min(self.text.len());
        let feeds = feeds_before(self.text, &self.feeds, place);
        let begin = begin(self.text, &self.feeds, feeds);
        let before = self.text.split_at(begin).1.split_at(place - begin).0;
        Position {
            line: feeds + 1,
            column: total(Units::Characters, before) + 1,
            utf16: total(Units::CodeUnits, before),
        }
    }

    /// The place in a line behind so many units; where it has fewer, the line's end.
    fn place_behind(&self, units: Units, line: usize, count: usize) -> u64
        ensures is { (p : ℕ) → IsBehind (text_of self.now) units line count p → result ≡ p }
        ensures within { result ≤ length (text_of self.now) }
    {
        let begin = begin(self.text, &self.feeds, line.saturating_sub(1));
        let rest = self.text.split_at(begin).1;
        let line = rest.split_at(line_len(rest)).0;
        (begin + reach(units, line, count)) as u64
    }

    /// The place of a character from its line and column, both from 1. Behind the end of the line or the text it is that end.
    pub fn place(&self, line: usize, column: usize) -> u64
        ensures is { (p : ℕ) → IsBehind (text_of self.now) Characters line (column - 1) p → result ≡ p }
        ensures within { result ≤ length (text_of self.now) }
    {
        self.place_behind(Units::Characters, line, column.saturating_sub(1))
    }

    /// The place of a character from its line, from 1, and from how many code units of UTF-16 stand before it there.
    pub fn place_of_units(&self, line: usize, utf16: usize) -> u64
        ensures is { (p : ℕ) → IsBehind (text_of self.now) CodeUnits line utf16 p → result ≡ p }
        ensures within { result ≤ length (text_of self.now) }
    {
        self.place_behind(Units::CodeUnits, line, utf16)
    }
}

//! The words of a line, and what a word is.

ghost use Rattle.std.specs.Prelude.{◌≡◌, ◌≤◌, IfOk, length, map, not};
ghost use Rattle.std.specs.Option.{option_map};
ghost use Rattle.std.specs.Str.{bytes_eq};
ghost use Rattle.std.specs.List.{prefix_len};
ghost use Rattle.shared_certificates.specs.Lines.{halves, is_blank, until, words};
ghost use Rattle.shared_certificates.specs.Views.{IsTrimmed, bytes_of, both_bytes};

use st_memory::Memory;
use std::alloc::Global;

fn is_blank(b: u8) -> bool
    ensures { result ≡ is_blank b }
{
    b == b' ' || b == b'\t' || b == b'\r'
}

fn blanks_len(bytes: &[u8]) -> usize
    ensures is { result ≡ prefix_len is_blank bytes.now }
    ensures within { result ≤ length bytes.now }
{
    bytes.iter().take_while(|b| is_blank(**b)).count()
}

/// How many bytes stand before the first one that is this.
fn until(sign: u8, bytes: &[u8]) -> usize
    ensures is { result ≡ until sign bytes.now }
    ensures within { result ≤ length bytes.now }
{
    bytes.iter().take_while(|b| **b != sign).count()
}

fn word_len(bytes: &[u8]) -> usize
    ensures is { result ≡ prefix_len (λ b. not (is_blank b)) bytes.now }
    ensures within { result ≤ length bytes.now }
{
    bytes.iter().take_while(|b| !is_blank(**b)).count()
}

/// What stands behind the blanks in front.
fn trimmed(line: &[u8]) -> &[u8]
    ensures same { words result.now ≡ words line.now }
    ensures trimmed { IsTrimmed result.now }
    ensures shorter { length result.now ≤ length line.now }
{
    line.split_at(blanks_len(line)).1
}

/// The words of a line.
pub fn words(alloc: Global, line: &[u8]) -> Result<Vec<&[u8]>, Memory>
    ensures { IfOk result (λ v. map bytes_of v.items ≡ words line.now) }
{
    let mut out = Vec::new(alloc);
    let mut rest = trimmed(line);
    'words: while !rest.is_empty() {
        let (word, behind) = rest.split_at(word_len(rest));
        out.push(word)?;
        rest = trimmed(behind);
    }
    Ok(out)
}

/// Whether a word is this name.
pub fn is(word: &[u8], name: &[u8]) -> bool
    ensures { result ≡ bytes_eq word.now name.now }
{
    word == name
}

/// What stands before a sign in a word, and behind it.
pub fn halves(sign: u8, word: &[u8]) -> Option<(&[u8], &[u8])>
    ensures { option_map both_bytes result ≡ halves sign word.now }
{
    let at = until(sign, word);
    if at < word.len() {
        Some((&word[..at], &word[at + 1..]))
    } else {
        None
    }
}

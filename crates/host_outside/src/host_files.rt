//! The files of the host, as the top call asks for them: each is read from its beginning on, once, so a pipe can be named.

ghost use Rattle.std.specs.Prelude.{◌≡◌, ◌<◌, ◌≤◌, None, length, slice_index, string_bytes, position, take};
ghost use Rattle.std.specs.Str.{bytes_eq};
ghost use Rattle.std.specs.Io.{ReadsAtMost};
ghost use Rattle.host_outside.specs.Host.{count_place};

use st_outside::{Failed, Files};
use std::io::{Read, Seek, SeekFrom};
use std::{fs, io, rt};

/// The file of a word, open, and the place up to which it was read.
#[derive(Drop)]
struct Reading<F: Drop> {
    word: usize,
    place: u64,
    file: F,
}

/// Real files. The one that was read last stays open: where the next call goes on behind what was read, nothing is sought,
/// so a pipe can be named. They tell no content. There is one count of faults for each of the first eight words, and one
/// for all other names; a name's count is that of the first of these words that equals it.
#[derive(Drop)]
pub struct HostFiles<'a, R: rt::Files> {
    host: &'a R,
    words: &'a [String],
    counts: [u64; 9],
    reading: Option<Reading<R::File>>,
}

impl<'a, R: rt::Files> HostFiles<'a, R> {
    pub fn new(host: &'a R, words: &'a [String]) -> Self {
        HostFiles {
            host,
            words,
            counts: [0; 9],
            reading: None,
        }
    }
}

fn is_word(word: &String, name: &str) -> bool
    ensures { result ≡ bytes_eq (string_bytes word.now) name.now }
{
    word.as_str() == name
}

fn first_word(words: &[String], name: &str) -> Option<usize>
    ensures { result ≡ position (λ w. bytes_eq (string_bytes w) name.now) words.now }
{
    words.iter().position(|word| is_word(word, name))
}

fn place(words: &[String], name: &str) -> usize
    ensures value { result ≡ count_place (λ w. string_bytes w) words.now name.now }
    ensures within { result < 9 }
{
    let first = if words.len() < 8 { words } else { &words[..8] };
    first_word(first, name).unwrap_or(8).min(8)
}

fn opened<R: rt::Files>(
    host: &R,
    name: &str,
    word: usize,
    place: u64,
) -> io::Result<Reading<R::File>> {
    let mut file = fs::open(host, name)?;
    if 0 < place {
        file.seek(SeekFrom::Start(place))?;
    }
    Ok(Reading { word, place, file })
}

/// Reads on where the file that is open is the word's and stands at the place, and else opens it anew.
fn read_from<R: rt::Files>(
    host: &R,
    reading: &mut Option<Reading<R::File>>,
    name: &str,
    word: usize,
    from: u64,
    buf: &mut [u8],
) -> io::Result<usize>
    ensures { ReadsAtMost result buf.new }
{
    let mut at = match reading.take() {
        Some(at) if at.word == word && at.place == from && word < 8 => at,
        _ => opened(host, name, word, from)?,
    };
    let count = at.file.read(buf)?;
    at.place = at.place.saturating_add(count as u64);
    *reading = Some(at);
    Ok(count)
}

impl<R: rt::Files> Files for HostFiles<'_, R> {
    ghost told = { λ _ _. None };

    ghost faults = { λ h name. slice_index h.counts (count_place (λ w. string_bytes w) h.words.now name) };

    fn read_at(&mut self, name: &str, from: u64, buf: &mut [u8]) -> Result<usize, Failed> {
        let i = place(self.words, name);
        match read_from(self.host, &mut self.reading, name, i, from, buf) {
            Ok(count) => Ok(count),
            Err(_) => {
                self.counts[i] = self.counts[i].saturating_add(1);
                Err(Failed)
            }
        }
    }
}

//! Texts that are held, in the place of files.

ghost use Rattle.std.specs.Prelude.{◌≡◌, ◌<◌, ◌-◌, length, min, option_map};
ghost use Rattle.st_outside.specs.Files.{GivesFront};
ghost use Rattle.milkhour_run.specs.Held.{told_in, misses_of};

use st_outside::{Failed, Files};

/// The texts that were read. One that couldn't be read isn't there.
#[derive(Clone, Copy)]
pub struct Texts<'a> {
    pub program: Option<&'a [u8]>,
    pub proof: Option<&'a [u8]>,
    /// The certificates, or the schedule.
    pub third: Option<&'a [u8]>,
}

/// Texts as files, under the names `program`, `proof` and `third`. Only the count of what isn't held ever rises.
#[derive(Drop)]
pub struct HeldTexts<'a> {
    pub texts: Texts<'a>,
    pub misses: u64,
}

fn text_named<'a>(texts: &Texts<'a>, name: &str) -> Option<&'a [u8]>
    ensures { option_map (λ bytes. bytes.now) result ≡ told_in texts.now name.now }
{
    if name == "program" {
        return texts.program;
    }
    if name == "proof" {
        return texts.proof;
    }
    if name == "third" {
        return texts.third;
    }
    None
}

/// Puts the bytes from a place on into the front of the buffer, and answers how many.
fn give(bytes: &[u8], from: u64, buf: &mut [u8]) -> usize
    requires { 0 < length buf.old }
    ensures count { result ≡ min (length buf.old) (length bytes.now - from) }
    ensures front { GivesFront from bytes.now buf.new result }
{
    let start = from as usize;
    if start >= bytes.len() {
        return 0;
    }
    let count = buf.len().min(bytes.len() - start);
    buf[..count].copy_from_slice(&bytes[start..start + count]);
    count
}

impl Files for HeldTexts<'_> {
    ghost told = { λ t. told_in t.texts };

    ghost faults = { λ t name. misses_of (told_in t.texts name) t.misses };

    fn read_at(&mut self, name: &str, from: u64, buf: &mut [u8]) -> Result<usize, Failed> {
        match text_named(&self.texts, name) {
            Some(bytes) => Ok(give(bytes, from, buf)),
            None => {
                self.misses = self.misses.saturating_add(1);
                Err(Failed)
            }
        }
    }
}

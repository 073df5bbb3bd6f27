//! What a reader holds is compared with the line that is expected of it, and taken unread where it begins with that line.

ghost use Rattle.std.specs.Prelude.{◌≡◌, ℕ, ◌+◌, ◌-◌, ◌<◌, ◌++◌, List, length, drop, true, false};
ghost use Rattle.st_form.specs.declared.conditions.Condition.{Condition};
ghost use Rattle.st_certificate.specs.Tree.{Tree};
ghost use Rattle.farkas_check.specs.Problem.{Setting};
ghost use Rattle.cert_text.specs.Held.{Held};
ghost use Rattle.certificate_batches.specs.Following.{is_behind, line_of, passed, IsExpected, IsCompared};

use cert_laws::laws::{header_is_read, spelled_is_read};
use cert_text::CertReader;

/// How what is held compares with what is expected.
#[derive(Clone, Copy, Drop)]
pub enum Compared {
    /// It begins with it, and was taken.
    Same,
    /// It isn't as long, and more may come.
    Short,
    Other,
}

/// Whether bytes begin with others.
fn begins_with(bytes: &[u8], front: &[u8]) -> bool
    ensures { result ≡ true → bytes.now ≡ front.now ++ drop (length front.now) bytes.now }
{
    bytes.starts_with(front)
}

/// Whether a header was taken, or not yet, as it should be before the block of the condition at a place.
fn stands(place: usize, second: bool) -> bool
    ensures { result ≡ true → second ≡ is_behind place }
{
    if place == 0 { !second } else { second }
}

/// Takes a line of so many bytes, but not its end, for the next block.
fn pass(reader: &mut CertReader, place: usize, count: usize)
    requires few { place < 20000 }
    requires number { reader.old.number ≡ place + 1 }
    requires behind { reader.old.second ≡ is_behind place }
    requires begins { (t : Tree) × (more : List ℕ) × (count ≡ length (line_of place t)) × (reader.old.bytes ≡ line_of place t ++ more) }
    ensures { reader.new ≡ passed reader.old (count - 1) }
{
    if place == 0 {
        // the header, of eleven bytes with its line's end
        let _place = reader.trailing();
        reader.skip(count - 12);
    } else {
        reader.skip(count - 1);
    }
}

/// How what is held compares where it doesn't begin with a line of so many bytes.
fn unlike(is_open: bool, held: u64, count: usize) -> Compared
    ensures { (k : Setting) (cs : List Condition) (place : ℕ) (h : Held) → (is_open ≡ true → h.finished ≡ false) → IsCompared k cs place h h result }
{
    if !is_open {
        return Compared::Other;
    }
    if held < count as u64 {
        return Compared::Short;
    }
    Compared::Other
}

/// Compares what is held with the line that is expected for the condition at a place, once as much is held, and takes it where it
/// begins with that line. `is_open` says that more of the text may come.
pub fn compare(reader: &mut CertReader, expected: &[u8], place: usize, is_open: bool) -> Compared
    requires few { place < 20000 }
    requires number { reader.old.number ≡ place + 1 }
    requires unended { is_open ≡ true → reader.old.finished ≡ false }
    requires line { (t : Tree) × (expected.now ≡ line_of place t) }
    ensures { (k : Setting) (cs : List Condition) → place < length cs → IsExpected k cs place expected.now → IsCompared k cs place reader.old reader.new result }
{
    spelled_is_read();
    header_is_read();
    if !stands(place, reader.is_second()) {
        return Compared::Other;
    }
    if begins_with(reader.front(), expected) {
        pass(reader, place, expected.len());
        return Compared::Same;
    }
    unlike(is_open, reader.held(), expected.len())
}

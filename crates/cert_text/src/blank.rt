//! What counts as blank: blanks, and a whole header.

ghost use Rattle.std.specs.Prelude.{◌≡◌, ◌+◌, ◌-◌, ◌<◌, ◌≤◌, ◌^◌, ◌∷◌, [], length, drop, ◌||◌};
ghost use Rattle.cert_text.specs.Blank.{blank_len, byte_behind, header_len, front_len, header_may_come};

use crate::letters::is_blank;

/// How many blanks stand in front.
pub fn blank_len(bytes: &[u8]) -> usize
    ensures len { result ≡ blank_len bytes.now }
    ensures within { result ≤ length bytes.now }
{
    bytes.iter().take_while(|b| is_blank(**b)).count()
}

/// Where one byte stands behind blanks, how far it reaches from `from`, and else 0.
fn byte_behind(byte: u8, from: usize, bytes: &[u8]) -> usize
    requires { from ≤ length bytes.now }
    ensures len { result ≡ byte_behind byte from bytes.now }
    ensures within { result ≤ length bytes.now }
{
    let at = from + blank_len(&bytes[from..]);
    if bytes[at..].starts_with(&[byte]) {
        at + 1
    } else {
        0
    }
}

/// The length of a whole header in front, or 0.
#[tactic(auto, unfolding(crate::specs::Blank::header_len))]
pub fn header_len(bytes: &[u8]) -> usize
    ensures len { result ≡ header_len bytes.now }
    ensures within { result ≤ length bytes.now }
{
    if bytes.starts_with(b"version") {
        let two = byte_behind(b'2', 7, bytes);
        if two == 0 {
            0
        } else {
            byte_behind(b';', two, bytes)
        }
    } else {
        0
    }
}

/// The length of what counts as blank in front, and whether a header is among it.
pub fn front_len(header: bool, bytes: &[u8]) -> (usize, bool)
    ensures front { result ≡ front_len header bytes.now }
    ensures within { result.0 ≤ length bytes.now }
{
    let blanks = blank_len(bytes);
    let rest = &bytes[blanks..];
    let len = if header { header_len(rest) } else { 0 };
    if len == 0 {
        (blanks, false)
    } else {
        (blanks + len + blank_len(&rest[len..]), true)
    }
}

/// Whether a header may still come.
pub fn header_may_come(number: u32, second: bool) -> bool
    ensures { result ≡ header_may_come number second }
{
    number < 2 && !second
}

pub fn either(a: bool, b: bool) -> bool
    ensures { result ≡ (a || b) }
{
    a || b
}

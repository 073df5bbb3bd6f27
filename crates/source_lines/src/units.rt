//! In what a column counts. In UTF-8 a character is one byte that begins it and as many as three from 128 to 191 (RFC 3629,
//! section 3); one of four bytes is two code units of UTF-16, and any other is one (RFC 2781, section 2.1). Each other byte
//! counts for one, so that a text of any bytes has columns.

ghost use Rattle.std.specs.Prelude.{◌≡◌, ◌≤◌, ◌*◌, length};
ghost use Rattle.source_lines.specs.Lines.{width, total, reach};

/// In what a column counts.
#[derive(Clone, Copy, Debug, PartialEq, Eq)]
pub enum Units {
    /// Characters, as people count.
    Characters,
    /// Code units of UTF-16, as editors count.
    CodeUnits,
}

/// How many units a byte adds to those before it.
fn width(units: Units, byte: u8) -> usize
    ensures { result ≡ width units byte }
{
    match units {
        Units::Characters => { if 128 <= byte && byte < 192 { 0 } else { 1 } }
        Units::CodeUnits => {
            if 240 <= byte {
                2
            } else if 128 <= byte && byte < 192 {
                0
            } else {
                1
            }
        }
    }
}

/// How many units the bytes have.
pub(crate) fn total(units: Units, bytes: &[u8]) -> usize
    ensures is { result ≡ total units bytes.now }
    ensures small { result ≤ 2 * length bytes.now }
{
    let mut total: usize = 0;
    for byte in bytes {
        total += width(units, *byte);
    }
    total
}

/// How many bytes stand before the character that so many units stand before, or before the end.
pub(crate) fn reach(units: Units, bytes: &[u8], count: usize) -> usize
    ensures is { result ≡ reach units count bytes.now }
    ensures within { result ≤ length bytes.now }
{
    let mut left = count;
    for (place, byte) in bytes.iter().enumerate() {
        let width = width(units, *byte);
        if left < width {
            return place;
        }
        left -= width;
    }
    bytes.len()
}

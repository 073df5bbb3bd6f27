//! Texts of others in HTML: `&`, `<`, `>` and `"` are written as references (WHATWG, *HTML Standard*, section 13.3, which asks for them
//! in texts and in attributes between quotation marks).

ghost use Rattle.std.specs.Prelude.{◌≡◌, ◌++◌, OnOk};
ghost use Rattle.html_escapes.specs.Escapes.{escaped_byte, escaped};

use st_memory::Memory;

fn push_bytes(out: &mut Vec<u8>, text: &[u8]) -> Result<(), Memory>
    ensures { OnOk result (out.new.items ≡ out.old.items ++ text.now) }
{
    out.extend_from_slice(text)?;
    Ok(())
}

fn push_byte(out: &mut Vec<u8>, byte: u8) -> Result<(), Memory>
    ensures { OnOk result (out.new.items ≡ out.old.items ++ escaped_byte byte) }
{
    if byte == b'&' {
        push_bytes(out, b"&amp;")
    } else if byte == b'<' {
        push_bytes(out, b"&lt;")
    } else if byte == b'>' {
        push_bytes(out, b"&gt;")
    } else if byte == b'"' {
        push_bytes(out, b"&quot;")
    } else {
        out.push(byte)?;
        Ok(())
    }
}

/// Appends a text, escaped. Want of memory is the only other answer.
pub fn push_escaped(out: &mut Vec<u8>, text: &[u8]) -> Result<(), Memory>
    ensures { OnOk result (out.new.items ≡ out.old.items ++ escaped text.now) }
{
    for byte in text {
        push_byte(out, *byte)?;
    }
    Ok(())
}

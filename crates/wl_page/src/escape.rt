//! Text within HTML.
ghost use Rattle.std.specs.Prelude.{◌≡◌, ◌++◌, OnOk};
ghost use Rattle.wl_page.specs.Page.{escaped, escaped_byte};

use std::alloc::AllocError;

/// Adds a byte as HTML shows it: `&`, `<`, `>` and a carriage return as a reference to the character, others as they are.
fn push_byte(text: &mut Vec<u8>, byte: u8) -> Result<(), AllocError>
    ensures { OnOk result (text.new.items ≡ text.old.items ++ escaped_byte byte) }
{
    match byte {
        b'&' => text.extend_from_slice("&amp;".as_bytes()),
        b'<' => text.extend_from_slice("&lt;".as_bytes()),
        b'>' => text.extend_from_slice("&gt;".as_bytes()),
        b'\r' => text.extend_from_slice("&#13;".as_bytes()),
        _ => text.extend_from_slice(&[byte]),
    }
}

/// Adds bytes as HTML shows them.
pub fn push_escaped(text: &mut Vec<u8>, bytes: &[u8]) -> Result<(), AllocError>
    ensures { OnOk result (text.new.items ≡ text.old.items ++ escaped bytes.now) }
{
    for byte in bytes {
        push_byte(text, *byte)?;
    }
    Ok(())
}

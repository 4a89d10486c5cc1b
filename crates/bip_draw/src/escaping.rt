//! Texts in charts: a byte that would end them there, or begin something else, stands as what
//! means it.
ghost use Rattle.std.specs.Prelude.{◌≡◌, ◌++◌, OnOk};
ghost use Rattle.std.specs.Fmt.{decimal};
ghost use Rattle.bip_draw.specs.Escaping.{escaped, escaped_byte};

use itoa::Buffer;
use std::alloc::AllocError;

/// Puts a text last inside of one of XML.
#[tactic(auto, unfolding(crate::specs::Escaping::escaped))]
pub(crate) fn write_escaped(text: &mut Vec<u8>, part: &[u8]) -> Result<(), AllocError>
    ensures { OnOk result (text.new.items ≡ text.old.items ++ escaped part.now) }
{
    for byte in part {
        write_escaped_byte(text, *byte)?;
    }
    Ok(())
}

fn write_escaped_byte(text: &mut Vec<u8>, byte: u8) -> Result<(), AllocError>
    ensures { OnOk result (text.new.items ≡ text.old.items ++ escaped_byte byte) }
{
    match byte {
        b'&' => text.extend_from_slice(b"&amp;"),
        b'<' => text.extend_from_slice(b"&lt;"),
        b'>' => text.extend_from_slice(b"&gt;"),
        b'"' => text.extend_from_slice(b"&quot;"),
        b'\'' => text.extend_from_slice(b"&#39;"),
        b' '..=b'~' => text.extend_from_slice(&[byte]),
        _ => text.extend_from_slice(b"?"),
    }
}

/// Puts a number last in a text.
pub(crate) fn write_number(text: &mut Vec<u8>, number: u64) -> Result<(), AllocError>
    ensures { OnOk result (text.new.items ≡ text.old.items ++ decimal number) }
{
    text.extend_from_slice(Buffer::new().format(number).as_bytes())
}

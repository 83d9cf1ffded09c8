//! Character-strings.
ghost use Rattle.std.specs.Prelude.{◌≡◌};
ghost use Rattle.zone_token.specs.Texts.{string_of};

use crate::bytes::first_byte;
use crate::cuts::first_place;
use crate::tokens::rest_after;
use enum_base::{Buffer, Text255};

/// The character-string of at most 255 bytes that a text with escapes stands for.
pub fn read_string(text: &[u8]) -> Option<Text255>
    ensures { result ≡ string_of text.now }
{
    if first_place(text, b'\\').is_some() {
        read_escaped(text)
    } else {
        Text255::from_bytes(text)
    }
}

// The same, byte by byte.
fn read_escaped(text: &[u8]) -> Option<Text255>
    ensures { result ≡ string_of text.now }
{
    let mut bytes = Buffer::<255>::new();
    let mut rest = text;
    while !rest.is_empty() {
        let (byte, more) = first_byte(rest)?;
        if bytes.is_full() {
            return None;
        }
        bytes.push(byte);
        rest = rest_after(rest, more);
    }
    Text255::from_bytes(bytes.as_slice())
}

//! Character-strings as zone text.
ghost use Rattle.std.specs.Prelude.{◌≡◌, ◌≤◌, ◌+◌, ◌++◌, length};
ghost use Rattle.rdata_field.specs.Strings.{quoted_byte, quoted};

use enum_base::{Buffer, Text255, decimal_escape};

/// A character-string in quotes, at most 1,022 bytes: it has at most 255, and each is written as at most four.
pub type QuotedText = Buffer<1022>;

/// The character-string in quotes, as a zone text has it: `"` and `\` have a `\` before them, and bytes outside 0x20 to 0x7E are
/// `\DDD`.
pub fn quoted(string: &Text255) -> QuotedText
    ensures { result ≡ quoted string.now }
{
    let mut text = QuotedText::new();
    text.push(b'"');
    for byte in string.as_bytes() {
        push_quoted_byte(&mut text, *byte);
    }
    text.push(b'"');
    text
}

// A byte between quotes.
fn push_quoted_byte(text: &mut QuotedText, byte: u8)
    requires { length text.old + 4 ≤ 1022 }
    ensures value { text.new ≡ text.old ++ quoted_byte byte }
    ensures size { length text.new ≤ length text.old + 4 }
{
    match byte {
        b'"' | b'\\' => {
            text.push(b'\\');
            text.push(byte);
        }
        0x20..=0x7E => text.push(byte),
        _ => text.push_slice(&decimal_escape(byte)),
    }
}

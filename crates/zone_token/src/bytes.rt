//! Bytes by what they mean in a zone text.
ghost use Rattle.std.specs.Prelude.{◌≡◌, ◌<◌, length, IfSome};
ghost use Rattle.zone_token.specs.Bytes.{is_line_end, is_blank, is_visible, is_quotable, is_escape, first_byte};

use enum_base::escaped_byte;

/// Whether a line feed stands at the front.
pub(crate) fn is_line_end(text: &[u8]) -> bool
    ensures { result ≡ is_line_end text.now }
{
    matches!(text, [b'\n', ..])
}

/// Whether a space, a tab, or a carriage return before a line feed stands at the front.
pub fn is_blank(text: &[u8]) -> bool
    ensures { result ≡ is_blank text.now }
{
    match text {
        [b' ' | b'\t', ..] => true,
        [b'\r', rest @ ..] => is_line_end(rest),
        _ => false,
    }
}

/// Whether the byte may stand outside quotes and comments.
pub(crate) fn is_visible(byte: u8) -> bool
    ensures { result ≡ is_visible byte }
{
    matches!(byte, b'!'..=b'~')
}

/// Whether the byte may stand inside quotes.
pub(crate) fn is_quotable(byte: u8) -> bool
    ensures { result ≡ is_quotable byte }
{
    matches!(byte, b'\t' | b' '..=b'~' | 0x80..=0xff)
}

/// Whether these bytes after a backslash begin a well-formed escape.
pub(crate) fn is_escape(text: &[u8]) -> bool
    ensures { result ≡ is_escape text.now }
{
    escaped_byte(text).is_some()
}

/// The byte that a text stands for at its front, and how many bytes it takes after the first.
pub(crate) fn first_byte(text: &[u8]) -> Option<(u8, usize)>
    ensures value { result ≡ first_byte text.now }
    ensures within { IfSome result (λ byte. byte.1 < length text.now) }
{
    match text {
        [] => None,
        [b'\\', rest @ ..] => escaped_byte(rest),
        [byte, ..] => Some((*byte, 0)),
    }
}

//! Passes over the bytes of a substitution, in pairs of a backslash and the byte after it.
ghost use Rattle.std.specs.Prelude.{◌≡◌, ◌+◌, ◌≤◌, ◌==◌, ◌&&◌, not, false, position, length, option_map, IfSome, ◌<◌};
ghost use Rattle.subst_expr.specs.Pieces.{backslash, is_delimiter, is_escape, is_flag, is_printable, is_special};
ghost use Rattle.subst_expr.specs.Scans.{delimiter_from, halves, bad_escape_from, undone_from};

use enum_base::Buffer;

/// Whether the byte may be a delimiter.
pub(crate) fn is_delimiter(b: u8) -> bool
    ensures { result ≡ is_delimiter b }
{
    b.is_ascii_graphic() && !b.is_ascii_alphanumeric() && !is_special(b)
}

// Whether the byte has a meaning of its own in an expression.
fn is_special(b: u8) -> bool
    ensures { result ≡ is_special b }
{
    b"\\^.[]$()|*+?{}".iter().any(|special| *special == b)
}

/// The place of the first byte outside 0x20 to 0x7E.
pub(crate) fn first_unprintable(text: &[u8]) -> Option<usize>
    ensures { result ≡ position (λ b. not (is_printable b)) text.now }
{
    text.iter().position(|b| !(b' '..=b'~').contains(b))
}

/// The place of the first byte that is no flag.
pub(crate) fn first_bad_flag(flags: &[u8]) -> Option<usize>
    ensures { result ≡ position (λ b. not (is_flag b)) flags.now }
{
    flags.iter().position(|b| !(*b == b'i' || *b == b'I'))
}

/// The bytes before the first delimiter outside pairs, and those after it.
pub(crate) fn halves(delim: u8, text: &[u8]) -> Option<(&[u8], &[u8])>
    ensures value { option_map (λ parts. (parts.0.now, parts.1.now)) result ≡ halves delim text.now }
    ensures short { IfSome result (λ parts. length parts.0.now + length parts.1.now + 1 ≡ length text.now) }
{
    let at = first_delimiter(delim, text)?;
    Some((&text[..at], &text[at + 1..]))
}

// The place of the first delimiter outside pairs.
fn first_delimiter(delim: u8, text: &[u8]) -> Option<usize>
    ensures value { result ≡ delimiter_from delim false 0 text.now }
    ensures within { IfSome result (λ at. at < length text.now) }
{
    let mut escaped = false;
    for (at, b) in text.iter().enumerate() {
        if !escaped && *b == delim {
            return Some(at);
        }
        escaped = begins_pair(escaped, *b);
    }
    None
}

/// The place of the first backslash that begins no escape, of a replacement that begins at a place.
pub(crate) fn first_bad_escape(delim: u8, start: usize, repl: &[u8]) -> Option<usize>
    requires { start + length repl.now ≤ 255 }
    ensures { result ≡ bad_escape_from delim false start repl.now }
{
    let mut escaped = false;
    for (at, b) in repl.iter().enumerate() {
        if escaped && !is_escape(delim, *b) {
            return Some(start + at - 1);
        }
        escaped = begins_pair(escaped, *b);
    }
    None
}

/// Whether the byte escapes the next one.
pub(crate) fn begins_pair(escaped: bool, b: u8) -> bool
    ensures { result ≡ (not escaped && b == backslash) }
{
    !escaped && b == b'\\'
}

// Whether a replacement may have the byte after a backslash.
fn is_escape(delim: u8, b: u8) -> bool
    ensures { result ≡ is_escape delim b }
{
    b == b'\\' || b == delim || matches!(b, b'1'..=b'9')
}

/// The bytes, with each escaped delimiter as the delimiter alone.
pub(crate) fn undone(delim: u8, ere: &[u8]) -> Buffer<255>
    requires { length ere.now ≤ 255 }
    ensures value { result ≡ undone_from delim false ere.now }
    ensures short { length result ≤ 255 }
{
    let mut row = Buffer::new();
    let mut escaped = false;
    for b in ere {
        if escaped {
            if *b != delim {
                row.push(b'\\');
            }
            row.push(*b);
            escaped = false;
        } else if *b == b'\\' {
            escaped = true;
        } else {
            row.push(*b);
        }
    }
    row
}

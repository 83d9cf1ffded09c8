//! What a text in a line stands for, and bytes as text.

use dns_name::Name;
use enum_base::{Bytes, MemoryFault};
use std::alloc::Global;

/// The bytes of a text in which `\xNN` is the byte of that hexadecimal number, `\n` a line feed, and `<N*TEXT>` the text
/// N times; all else stands for itself.
pub fn bytes_of(alloc: Global, text: &str) -> Result<Bytes, MemoryFault> {
    let mut bytes = Bytes::new(alloc);
    for (place, part) in text.split('<').enumerate() {
        match repeat_in(part) {
            Some((count, again, rest)) if place > 0 => {
                push_often(alloc, &mut bytes, count, again)?;
                push_plain(&mut bytes, rest)?;
            }
            _ => {
                if place > 0 {
                    bytes.push_slice(b"<")?;
                }
                push_plain(&mut bytes, part)?;
            }
        }
    }
    Ok(bytes)
}

// How often, what, and the text after it, of `N*TEXT>`.
fn repeat_in(part: &str) -> Option<(u32, &str, &str)> {
    let (marked, rest) = part.split_once('>')?;
    let (count, again) = marked.split_once('*')?;
    Some((count.parse::<u32>().ok()?, again, rest))
}

fn push_often(alloc: Global, bytes: &mut Bytes, count: u32, text: &str) -> Result<(), MemoryFault> {
    let mut again = Bytes::new(alloc);
    push_plain(&mut again, text)?;
    for _ in 0..count {
        bytes.push_slice(again.as_slice())?;
    }
    Ok(())
}

// Appends a text that repeats nothing.
fn push_plain(bytes: &mut Bytes, text: &str) -> Result<(), MemoryFault> {
    for (place, part) in text.split('\\').enumerate() {
        match escape_in(part) {
            Some((byte, rest)) if place > 0 => {
                bytes.push_slice(&[byte])?;
                bytes.push_slice(rest.as_bytes())?;
            }
            _ => {
                if place > 0 {
                    bytes.push_slice(b"\\")?;
                }
                bytes.push_slice(part.as_bytes())?;
            }
        }
    }
    Ok(())
}

// The byte of an escape after its backslash, and the text after it.
fn escape_in(part: &str) -> Option<(u8, &str)> {
    if let Some(rest) = part.strip_prefix('n') {
        return Some((b'\n', rest));
    }
    let (digits, rest) = part.strip_prefix('x')?.split_at_checked(2)?;
    Some((u8::from_str_radix(digits, 16).ok()?, rest))
}

/// The bytes of a field, which are none where it is `-`.
pub fn field_of(alloc: Global, field: &str) -> Result<Bytes, MemoryFault> {
    if field == "-" {
        return Ok(Bytes::new(alloc));
    }
    bytes_of(alloc, field)
}

/// Bytes as text: those that can be printed and line feeds as they are, each other as `\xNN`.
pub fn text_of(alloc: Global, bytes: &[u8]) -> Result<String, MemoryFault> {
    let mut text = String::new(alloc);
    for byte in bytes {
        if matches!(*byte, b'\n' | b' '..=b'~') {
            text.push(char::from(*byte))?;
        } else {
            text.push_str("\\x")?;
            text.push_str(hex::encode(alloc, &[*byte])?.as_str())?;
        }
    }
    Ok(text)
}

/// The number of a text; 0 where it is none.
pub fn number_of(text: &str) -> u32 {
    text.parse().unwrap_or(0)
}

/// The name of a text that ends with a dot.
pub fn name_of(alloc: Global, text: &str) -> Result<Option<Name>, MemoryFault> {
    let bytes = bytes_of(alloc, text)?;
    Ok(Name::from_text(bytes.as_slice(), None).ok())
}

//! Lines that differ by a number.

use crate::bytes::{bytes_of, number_of};
use enum_base::{Bytes, MemoryFault, push_number};
use std::alloc::Global;

/// Appends a line for each number of `FROM TO TEXT`: the text, in which `%` stands for the number and `&` for the next one.
pub fn push_lines(alloc: Global, out: &mut Bytes, rest: &str) -> Result<(), MemoryFault> {
    let (from, rest) = rest.split_once(' ').unwrap_or((rest, ""));
    let (to, text) = rest.split_once(' ').unwrap_or((rest, ""));
    let text = bytes_of(alloc, text)?;
    for number in number_of(from)..number_of(to).saturating_add(1) {
        push_numbered(out, text.as_slice(), number)?;
        out.push_slice(b"\n")?;
    }
    Ok(())
}

fn push_numbered(out: &mut Bytes, text: &[u8], number: u32) -> Result<(), MemoryFault> {
    for byte in text {
        match *byte {
            b'%' => push_number(b"", number as usize, out)?,
            b'&' => push_number(b"", number.saturating_add(1) as usize, out)?,
            other => out.push_slice(&[other])?,
        }
    }
    Ok(())
}

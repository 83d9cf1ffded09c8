//! Queries.

use cases_text::{name_of, number_of};
use dns_name::Name;
use enum_base::{Bytes, MemoryFault};
use std::alloc::Global;
use zone_db::Way;

/// The way of that word.
pub fn way_of(word: &str) -> Way {
    if word == "stream" {
        return Way::Stream;
    }
    Way::Datagram
}

/// A query with the number 4660 and RD: `SIZE NAME TYPE`.
pub fn query_of(alloc: Global, text: &str) -> Result<Bytes, MemoryFault> {
    let (size, rest) = text.split_once(' ').unwrap_or((text, ""));
    let (name, kind) = rest.split_once(' ').unwrap_or((rest, ""));
    let name = name_of(alloc, name)?.unwrap_or(Name::root());
    let mut query = Bytes::new(alloc);
    query.push_slice(&[0x12, 0x34, 1, 0, 0, 1, 0, 0, 0, 0, 0])?;
    query.push_slice(&[u8::from(size != "-")])?;
    query.push_slice(name.wire())?;
    push_u16(&mut query, kind)?;
    query.push_slice(&[0, 1])?;
    if size != "-" {
        query.push_slice(&[0, 0, 41])?;
        push_u16(&mut query, size)?;
        query.push_slice(&[0; 6])?;
    }
    Ok(query)
}

fn push_u16(query: &mut Bytes, digits: &str) -> Result<(), MemoryFault> {
    let number = number_of(digits).min(65_535) as u16;
    query.push_slice(&number.to_be_bytes())
}

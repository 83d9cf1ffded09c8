//! Cases of names in messages.

use cases_text::{digits_of, hex_of, number_of, text_of};
use dns_name::{Name, WithinFault};
use enum_base::MemoryFault;
use std::alloc::Global;

/// The answer of a case.
pub fn answer(alloc: Global, verb: &str, rest: &str) -> Result<String, MemoryFault> {
    let (text, places) = rest.split_once(' ').unwrap_or((rest, ""));
    let message = digits_of(alloc, text)?;
    let (at, to) = places.split_once(' ').unwrap_or((places, ""));
    let (at, to) = (number_of(at) as usize, number_of(to) as usize);
    match verb {
        "at" => read_at(alloc, message.as_slice(), at),
        _ => read_within(alloc, message.as_slice(), at, to),
    }
}

fn read_at(alloc: Global, message: &[u8], at: usize) -> Result<String, MemoryFault> {
    if at > message.len() {
        return Ok("no place".to_string(alloc)?);
    }
    match Name::read_at(message, at) {
        Ok((name, next)) => read(alloc, &name, next),
        Err(fault) => text_of(alloc, fault.words().as_slice()),
    }
}

fn read_within(alloc: Global, message: &[u8], at: usize, to: usize) -> Result<String, MemoryFault> {
    if at > to || to > message.len() {
        return Ok("no place".to_string(alloc)?);
    }
    match Name::read_within(message, at, to) {
        Ok((name, next)) => read(alloc, &name, next),
        Err(WithinFault::Shape { at }) => Ok(format!(in alloc; "Shape {at}")?),
        Err(WithinFault::Wire(fault)) => text_of(alloc, fault.words().as_slice()),
    }
}

fn read(alloc: Global, name: &Name, next: usize) -> Result<String, MemoryFault> {
    let wire = hex_of(alloc, name.wire())?;
    Ok(format!(in alloc; "{wire} {next}")?)
}

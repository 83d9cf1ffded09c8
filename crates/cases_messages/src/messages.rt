//! Cases of messages.

use cases_text::{digits_of, hex_of, text_of};
use dns_wire::{DecodeFault, EncodeFault, Message, Record, decode, encode, read_back};
use enum_base::{Bytes, MemoryFault};
use message_text::print_message;
use std::alloc::Global;

/// The answer of a case.
pub fn answer(alloc: Global, verb: &str, rest: &str) -> Result<String, MemoryFault> {
    let message = digits_of(alloc, rest)?;
    match verb {
        "cuts" => cuts(alloc, message.as_slice()),
        _ => match decode(alloc, message.as_slice()) {
            Ok(message) => read(alloc, verb, &message),
            Err(fault) => told(alloc, fault),
        },
    }
}

fn read(alloc: Global, verb: &str, message: &Message) -> Result<String, MemoryFault> {
    match verb {
        "decode" => lines(alloc, message),
        "encode" => written(alloc, message),
        _ => copied(alloc, message),
    }
}

// The lines of a message, in one line.
fn lines(alloc: Global, message: &Message) -> Result<String, MemoryFault> {
    let printed = print_message(alloc, message)?;
    let text = text_of(alloc, printed.as_slice())?;
    let mut told = String::new(alloc);
    for (place, line) in text.lines().enumerate() {
        if place > 0 {
            told.push_str("; ")?;
        }
        told.push_str(line)?;
    }
    Ok(told)
}

// The bytes of a message that is written, if those of the message that is read back are the same.
fn written(alloc: Global, message: &Message) -> Result<String, MemoryFault> {
    let mut out = Bytes::new(alloc);
    let mut again = Bytes::new(alloc);
    match write_twice(alloc, message, &mut out, &mut again) {
        Ok(()) => {}
        Err(EncodeFault::TooLong) => return Ok("TooLong".to_string(alloc)?),
        Err(EncodeFault::Memory) => return Err(MemoryFault),
    }
    if again.as_slice() != out.as_slice() {
        return Ok("another message is read back".to_string(alloc)?);
    }
    let size = out.as_slice().len();
    if size > 300 {
        return Ok(format!(in alloc; "{size} bytes")?);
    }
    hex_of(alloc, out.as_slice())
}

// Writes a message, and once more as it is read back.
fn write_twice(
    alloc: Global,
    message: &Message,
    out: &mut Bytes,
    again: &mut Bytes,
) -> Result<(), EncodeFault> {
    encode(message, out)?;
    let back = read_back(alloc, message)?;
    encode(&back, again)
}

// The fields of a copy of each record.
fn copied(alloc: Global, message: &Message) -> Result<String, MemoryFault> {
    let mut told = String::new(alloc);
    push_copies(alloc, message.answers.as_slice(), &mut told)?;
    push_copies(alloc, message.authority.as_slice(), &mut told)?;
    push_copies(alloc, message.additional.as_slice(), &mut told)?;
    Ok(told)
}

fn push_copies(alloc: Global, records: &[Record], told: &mut String) -> Result<(), MemoryFault> {
    for record in records {
        let copy = record.copy(alloc)?;
        let owner = text_of(alloc, copy.owner.text().as_slice())?;
        let rdata = rdata_of(alloc, &copy)?;
        let (ttl, class, kind) = (copy.ttl, copy.class, copy.kind);
        let before = if told.is_empty() { "" } else { "; " };
        told.push_str(format!(in alloc; "{before}{owner} {ttl} {class} {kind} {rdata}")?.as_str())?;
    }
    Ok(())
}

// The RDATA in hexadecimal; `-` where there is none.
fn rdata_of(alloc: Global, record: &Record) -> Result<String, MemoryFault> {
    let rdata = record.content.rdata(alloc)?;
    match rdata.as_slice() {
        [] => Ok("-".to_string(alloc)?),
        bytes => hex_of(alloc, bytes),
    }
}

// From which length on a front of the message has which fault.
fn cuts(alloc: Global, message: &[u8]) -> Result<String, MemoryFault> {
    let mut told = String::new(alloc);
    let mut last = String::new(alloc);
    for size in 0..message.len() + 1 {
        let now = match decode(alloc, &message[..size]) {
            Ok(_) => "read".to_string(alloc)?,
            Err(fault) => self::told(alloc, fault)?,
        };
        if now.as_str() != last.as_str() {
            let before = if size == 0 { "" } else { ", " };
            told.push_str(format!(in alloc; "{before}{size} {now}")?.as_str())?;
            last = now;
        }
    }
    Ok(told)
}

fn told(alloc: Global, fault: DecodeFault) -> Result<String, MemoryFault> {
    match fault {
        DecodeFault::Memory => Err(MemoryFault),
        _ => text_of(alloc, fault.words().as_slice()),
    }
}

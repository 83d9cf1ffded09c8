//! Cases of names behind many pointers.

use cases_text::{number_of, text_of};
use dns_wire::{Message, decode};
use enum_base::{Bytes, MemoryFault};
use std::alloc::Global;

// Where the RDATA of the first answer begins: after a header, the root, a type, a class, a TTL and an RDLENGTH.
const RDATA: u16 = 23;

/// The answer of a case: the owner that is a pointer into the RDATA of the record before it.
pub fn answer(alloc: Global, verb: &str, rest: &str) -> Result<String, MemoryFault> {
    let count = number_of(rest).min(16_000) as u16;
    match verb {
        "far" => far(alloc, count),
        "labels" => chain(alloc, count.min(8180), b"\x01a"),
        _ => chain(alloc, count.min(8180), b""),
    }
}

// The owner is a label `a` after so many bytes.
fn far(alloc: Global, count: u16) -> Result<String, MemoryFault> {
    let mut rdata = Bytes::new(alloc);
    for _ in 0..count {
        rdata.push_slice(&[0])?;
    }
    let place = size_of(&rdata) % 16384 + RDATA;
    rdata.push_slice(b"\x01a\x00")?;
    owner_at(alloc, &rdata, place)
}

// The RDATA is a root and then pointers, each after the label; the owner points to the last.
fn chain(alloc: Global, count: u16, label: &[u8]) -> Result<String, MemoryFault> {
    let mut rdata = Bytes::new(alloc);
    rdata.push_slice(&[0])?;
    let mut last = RDATA;
    for _ in 0..count {
        let here = size_of(&rdata) % 16384 + RDATA;
        rdata.push_slice(label)?;
        rdata.push_slice(&pointer(last))?;
        last = here;
    }
    owner_at(alloc, &rdata, last)
}

// The owner of the second answer, a pointer to that place, where the first one has this RDATA.
fn owner_at(alloc: Global, rdata: &Bytes, place: u16) -> Result<String, MemoryFault> {
    let mut message = Bytes::new(alloc);
    message.push_slice(b"\x12\x34\x01\x00\x00\x00\x00\x02\x00\x00\x00\x00")?;
    message.push_slice(b"\x00\x03\xe7\x00\x01\x00\x00\x00\x00")?;
    message.push_slice(&size_of(rdata).to_be_bytes())?;
    message.push_slice(rdata.as_slice())?;
    message.push_slice(&pointer(place))?;
    message.push_slice(b"\x00\x01\x00\x01\x00\x00\x00\x00\x00\x04\x01\x02\x03\x04")?;
    match decode(alloc, message.as_slice()) {
        Ok(message) => last_owner(alloc, &message),
        Err(fault) => text_of(alloc, fault.words().as_slice()),
    }
}

// How many bytes there are, of at most 65,535.
fn size_of(bytes: &Bytes) -> u16 {
    u16::try_from(bytes.as_slice().len()).unwrap_or(0)
}

// A pointer to that offset, below 16,384.
fn pointer(offset: u16) -> [u8; 2] {
    (offset % 16384 + 49152).to_be_bytes()
}

fn last_owner(alloc: Global, message: &Message) -> Result<String, MemoryFault> {
    match message.answers.as_slice() {
        [.., record] => text_of(alloc, record.owner.text().as_slice()),
        [] => Ok("no answer".to_string(alloc)?),
    }
}

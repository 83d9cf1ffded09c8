//! Zone texts. `text TEXT` is fed whole and then byte by byte, and the lines of its records are read again; where another
//! answer comes there, it is told too. `many TEXT` is fed in larger pieces, and `once TEXT` in one, and the number of its
//! records is told. `refused TEXT` is fed byte by byte up to the first feed that refuses: how many bytes that were, its fault,
//! and the answer at the end.

use cases_records::{push_folded, read_records, records_of};
use cases_text::{bytes_of, text_of};
use dns_name::Name;
use dns_wire::Records;
use enum_base::{Bytes, MemoryFault, push_number};
use std::alloc::Global;
use zone_text::{TextFault, ZoneReader};

/// How many bytes a piece of a large text has.
pub const PIECE: usize = 65_536;

/// What is told of a text that is fed whole, and where another answer comes byte by byte or from the lines of its records, that
/// too.
pub fn told(alloc: Global, origin: Name, text: &str) -> Result<String, MemoryFault> {
    let bytes = bytes_of(alloc, text)?;
    let said = read_records(alloc, origin, bytes.as_slice(), bytes.as_slice().len());
    let mut whole = Bytes::new(alloc);
    push_answer(&mut whole, &said)?;
    let mut parts = Bytes::new(alloc);
    push_answer(
        &mut parts,
        &read_records(alloc, origin, bytes.as_slice(), 1),
    )?;
    push_other(&mut whole, b"  byte by byte:\n", &parts)?;
    if let Ok(records) = &said {
        let again = told_again(alloc, records)?;
        push_other(&mut whole, b"  read again:\n", &again)?;
    }
    lines_of(alloc, &whole)
}

// Appends another answer after its heading.
fn push_other(told: &mut Bytes, heading: &[u8], other: &Bytes) -> Result<(), MemoryFault> {
    if told.as_slice() != other.as_slice() {
        told.push_slice(heading)?;
        told.push_slice(other.as_slice())?;
    }
    Ok(())
}

// What is told of the text that the lines of records are.
fn told_again(alloc: Global, records: &Records) -> Result<Bytes, MemoryFault> {
    let mut lines = Bytes::new(alloc);
    push_folded(&mut lines, b"", records.as_slice())?;
    let mut told = Bytes::new(alloc);
    let said = read_records(alloc, Name::root(), lines.as_slice(), PIECE);
    push_answer(&mut told, &said)?;
    Ok(told)
}

/// What is told of a large text that is fed in pieces of so many bytes.
pub fn counted(
    alloc: Global,
    origin: Name,
    text: &str,
    size: usize,
) -> Result<String, MemoryFault> {
    let bytes = bytes_of(alloc, text)?;
    let mut told = Bytes::new(alloc);
    match read_records(alloc, origin, bytes.as_slice(), size) {
        Ok(records) => push_number(b"  records ", records.as_slice().len(), &mut told)?,
        Err(fault) => push_fault(&mut told, &fault)?,
    }
    lines_of(alloc, &told)
}

/// The feed that refuses a text that is fed byte by byte, and what is told at its end.
pub fn refused(alloc: Global, origin: Name, text: &str) -> Result<String, MemoryFault> {
    let bytes = bytes_of(alloc, text)?;
    let mut told = Bytes::new(alloc);
    let mut reader = ZoneReader::new(alloc, origin);
    for (place, byte) in bytes.as_slice().iter().enumerate() {
        if let Err(fault) = reader.feed(&[*byte]) {
            push_number(b"  byte ", place, &mut told)?;
            push_fault(&mut told, &fault)?;
            break;
        }
    }
    push_answer(&mut told, &records_of(reader))?;
    lines_of(alloc, &told)
}

// Lines after the line of their case.
fn lines_of(alloc: Global, lines: &Bytes) -> Result<String, MemoryFault> {
    let text = text_of(alloc, lines.as_slice())?;
    let mut told = "\n".to_string(alloc)?;
    told.push_str(text.trim_end())?;
    Ok(told)
}

// Appends the lines of the records, or the fault.
fn push_answer(out: &mut Bytes, read: &Result<Records, TextFault>) -> Result<(), MemoryFault> {
    match read {
        Ok(records) => {
            push_folded(out, b"  ", records.as_slice())?;
            out.push_slice(b"  end\n")
        }
        Err(fault) => push_fault(out, fault),
    }
}

/// Appends the line of a fault.
pub fn push_fault(out: &mut Bytes, fault: &TextFault) -> Result<(), MemoryFault> {
    out.push_slice(b"  ")?;
    out.push_slice(fault.words().as_slice())?;
    out.push_slice(b"\n")
}

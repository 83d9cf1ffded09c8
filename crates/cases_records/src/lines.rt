//! Records in one line each: the owner, TTL, IN, type, and the fields as they are written back.

use dns_name::Name;
use dns_wire::{Content, Record};
use enum_base::{Bytes, MemoryFault, push_number};
use zone_text::write_fields;

/// Appends a line of each record after a margin, the owners folded.
pub fn push_folded(out: &mut Bytes, margin: &[u8], records: &[Record]) -> Result<(), MemoryFault> {
    for record in records {
        push_record(out, margin, &record.owner.fold(), record)?;
    }
    Ok(())
}

/// Appends a line of each record after a margin.
pub fn push_records(out: &mut Bytes, records: &[Record]) -> Result<(), MemoryFault> {
    for record in records {
        push_record(out, b"  ", &record.owner, record)?;
    }
    Ok(())
}

fn push_record(
    out: &mut Bytes,
    margin: &[u8],
    owner: &Name,
    record: &Record,
) -> Result<(), MemoryFault> {
    out.push_slice(margin)?;
    owner.to_text(out)?;
    push_number(b" ", record.ttl as usize, out)?;
    out.push_slice(if record.class == 1 { b" IN " } else { b" ?? " })?;
    out.push_slice(word_of(&record.content))?;
    out.push_slice(b" ")?;
    push_fields(out, record)?;
    out.push_slice(b"\n")
}

// The name of the type.
fn word_of(content: &Content) -> &'static [u8] {
    match content {
        Content::A(_) => b"A",
        Content::Ns(_) => b"NS",
        Content::Cname(_) => b"CNAME",
        Content::Soa(_) => b"SOA",
        Content::Ptr(_) => b"PTR",
        Content::Mx(_, _) => b"MX",
        Content::Txt(_) => b"TXT",
        Content::Aaaa(_) => b"AAAA",
        Content::Srv(_, _, _, _) => b"SRV",
        Content::Naptr(_) => b"NAPTR",
        Content::Opt(_) | Content::Raw(_) => b"??",
    }
}

fn push_fields(out: &mut Bytes, record: &Record) -> Result<(), MemoryFault> {
    match &record.content {
        Content::Opt(_) | Content::Raw(_) => out.push_slice(b"??"),
        content => write_fields(content, out),
    }
}

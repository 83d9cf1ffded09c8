//! Replies to queries.
ghost use Rattle.std.specs.Prelude.{◌≡◌, ◌≤◌, ◌↔◌, length, Ok, None, IsTrue, IfOk, OnOk, OnErr};
ghost use Rattle.dns_wire.specs.Message.{Spells};
ghost use Rattle.zone_db.specs.Bits.{IsSilent, header_of};
ghost use Rattle.zone_db.specs.Replies.{bare, limit_of};
ghost use Rattle.responder.specs.Answering.{Answers, Sends, Speaks};

use crate::bits::{header_of, is_silent};
use crate::cut::limit_of;
use crate::message::send;
use crate::plan::{FORMERR, options_heard};
use crate::said::{bare, said_to};
use dns_wire::{DecodeFault, Message, decode};
use enum_base::{Bytes, MemoryFault};
use std::alloc::Global;
use zone_db::{Way, ZoneSet};

/// Whether a query was answered.
#[derive(Clone, Copy, Debug, PartialEq, Eq)]
pub enum Answered {
    /// The reply was appended.
    Reply,
    /// Nothing is said to it: it has no whole header, or is itself a reply.
    Silent,
}

/// Appends the reply to a query that came this way (RFC 1034, 4.3.2): on a stream of at most 65,535 bytes, as a
/// datagram of at most 512, or what the query's options say within 512 to 4,096.
///
/// # Errors
/// Out of memory; then nothing is appended. `Silent` takes no memory.
pub fn answer(
    alloc: Global,
    zones: &ZoneSet,
    query: &[u8],
    way: Way,
    out: &mut Bytes,
) -> Result<Answered, MemoryFault>
    ensures answered { IfOk result (Answers zones.now query.now way out.old out.new) }
    ensures silent { IsSilent query.now → result ≡ Ok Answered.Silent }
    ensures err { OnErr result (out.new ≡ out.old) }
{
    if is_silent(query) {
        return Ok(Answered::Silent);
    }
    speak(alloc, zones, query, way, out)?;
    Ok(Answered::Reply)
}

// Appends the reply to a query that has a whole header and is no reply.
fn speak(
    alloc: Global,
    zones: &ZoneSet,
    query: &[u8],
    way: Way,
    out: &mut Bytes,
) -> Result<(), MemoryFault>
    requires { 12 ≤ length query.now }
    ensures ok { OnOk result (Speaks zones.now query.now way out.old out.new) }
    ensures err { OnErr result (out.new ≡ out.old) }
{
    match decode(alloc, query) {
        Ok(message) => speak_to(alloc, zones, query, &message, way, out),
        Err(fault) => {
            if is_memory(fault) {
                return Err(MemoryFault);
            }
            speak_to_bytes(alloc, query, way, out)
        }
    }
}

fn is_memory(fault: DecodeFault) -> bool
    ensures { IsTrue result ↔ (fault ≡ DecodeFault.Memory) }
{
    fault == DecodeFault::Memory
}

// Appends the reply to a query that is a message.
fn speak_to(
    alloc: Global,
    zones: &ZoneSet,
    query: &[u8],
    message: &Message,
    way: Way,
    out: &mut Bytes,
) -> Result<(), MemoryFault>
    requires header { 12 ≤ length query.now }
    requires spells { Spells query.now message.now }
    ensures ok { OnOk result (Speaks zones.now query.now way out.old out.new) }
    ensures err { OnErr result (out.new ≡ out.old) }
{
    let options = options_heard(message);
    let draft = said_to(alloc, zones, message)?;
    send(
        alloc,
        limit_of(way, options),
        &header_of(query),
        options,
        draft,
        out,
    )
}

// Appends the reply to bytes that are no message.
fn speak_to_bytes(alloc: Global, query: &[u8], way: Way, out: &mut Bytes) -> Result<(), MemoryFault>
    requires { 12 ≤ length query.now }
    ensures ok { OnOk result (Sends (limit_of way None) (header_of query.now) None (bare 1 None) out.old out.new) }
    ensures err { OnErr result (out.new ≡ out.old) }
{
    send(
        alloc,
        limit_of(way, None),
        &header_of(query),
        None,
        bare(alloc, FORMERR, None),
        out,
    )
}

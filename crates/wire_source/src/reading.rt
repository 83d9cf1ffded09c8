//! How a reply is read (RFC 1034, 5.3.3; RFC 1035, 7.3).
ghost use Rattle.std.specs.Prelude.{◌≡◌, ◌↔◌, IsTrue, IfOk};
ghost use Rattle.zone_db.specs.Bits.{qr_of, opcode_of, tc_of};
ghost use Rattle.wire_source.specs.Readings.{Echoes, IsRead, IsReplyTo, IsTaken, MessageReads, TakenReads, rcode_of};
ghost use Rattle.wire_source.specs.Tries.{HasFewRead};

use crate::records::offer_in;
use crate::trouble::Trouble;
use dns_name::Name;
use dns_wire::kinds::{INTERNET, NAPTR};
use dns_wire::{DecodeFault, Message, Question, decode};
use enum_base::MemoryFault;
use naptr_data::Offer;
use std::alloc::Global;
use zone_db::Way;

// The bits of a header: QR, the unit of the opcode, which has four, and TC (RFC 1035, 4.1.1).
const QR: u16 = 0x8000;

const OPCODE: u16 = 0x0800;

const TC: u16 = 0x0200;

// The codes that are no fault of the server (RFC 1035, 4.1.1).
const NOERROR: u8 = 0;

const NXDOMAIN: u8 = 3;

const REFUSED: u8 = 5;

/// What is read in a reply.
#[derive(Drop)]
pub enum Reading {
    /// What is at the name.
    Says(Offer),
    /// The reply was cut short; the whole of it is to be had on a stream.
    CutShort,
    /// Nothing that can be used.
    Faulty(Trouble),
}

/// Reads what came this way after the query of that number for the rules at a name.
///
/// # Errors
/// Out of memory.
pub(crate) fn read_reply(
    alloc: Global,
    id: u16,
    name: &Name,
    way: Way,
    reply: &[u8],
) -> Result<Reading, MemoryFault>
    ensures read { IfOk result (IsRead id name.now way reply.now) }
    ensures few { IfOk result HasFewRead }
{
    match decode(alloc, reply) {
        Ok(message) => read_message(alloc, id, name, way, &message),
        Err(fault) => {
            if is_memory(fault) {
                return Err(MemoryFault);
            }
            Ok(Reading::Faulty(Trouble::BadReply(fault)))
        }
    }
}

fn is_memory(fault: DecodeFault) -> bool
    ensures { IsTrue result ↔ (fault ≡ DecodeFault.Memory) }
{
    fault == DecodeFault::Memory
}

fn read_message(
    alloc: Global,
    id: u16,
    name: &Name,
    way: Way,
    message: &Message,
) -> Result<Reading, MemoryFault>
    ensures read { IfOk result (MessageReads id name.now way message.now) }
    ensures few { IfOk result HasFewRead }
{
    if is_taken(id, name, way, message) {
        return read_taken(alloc, name, message);
    }
    Ok(Reading::Faulty(Trouble::WrongReply))
}

// Whether the message is a reply to that query, and not cut short on a stream.
fn is_taken(id: u16, name: &Name, way: Way, message: &Message) -> bool
    ensures { IsTrue result ↔ IsTaken id name.now way message.now }
{
    is_reply_to(id, name, message) && !(way == Way::Stream && is_cut_short(message))
}

fn is_cut_short(message: &Message) -> bool
    ensures { IsTrue result ↔ (tc_of message.now.header.bits ≡ 1) }
{
    let bits = message.header.bits;
    bits / TC % 2 == 1
}

fn is_reply_to(id: u16, name: &Name, message: &Message) -> bool
    ensures { IsTrue result ↔ IsReplyTo id name.now message.now }
{
    message.header.id == id
        && is_reply(message.header.bits)
        && is_ordinary(message.header.bits)
        && echoes(name, message.questions.as_slice())
}

fn is_reply(bits: u16) -> bool
    ensures { IsTrue result ↔ (qr_of bits ≡ 1) }
{
    bits / QR % 2 == 1
}

fn is_ordinary(bits: u16) -> bool
    ensures { IsTrue result ↔ (opcode_of bits ≡ 0) }
{
    bits / OPCODE % 16 == 0
}

// Whether the one question is that for the rules at the name.
fn echoes(name: &Name, questions: &[Question]) -> bool
    ensures { IsTrue result ↔ Echoes name.now questions.now }
{
    match questions {
        [question] => {
            question.name.same(name) && question.kind == NAPTR && question.class == INTERNET
        }
        _ => false,
    }
}

// Reads a reply that is taken.
fn read_taken(alloc: Global, name: &Name, message: &Message) -> Result<Reading, MemoryFault>
    ensures read { IfOk result (TakenReads name.now message.now) }
    ensures few { IfOk result HasFewRead }
{
    if is_cut_short(message) {
        return Ok(Reading::CutShort);
    }
    match rcode_of(message.header.bits) {
        REFUSED => Ok(Reading::Says(Offer::Unserved)),
        NOERROR | NXDOMAIN => Ok(Reading::Says(offer_in(alloc, name, message)?)),
        rcode => Ok(Reading::Faulty(Trouble::Server { rcode })),
    }
}

fn rcode_of(bits: u16) -> u8
    ensures { result ≡ rcode_of bits }
{
    (bits % 16) as u8
}

//! Messages as bytes.
ghost use Rattle.std.specs.Prelude.{◌≡◌, ◌<◌, ◌≤◌, ◌++◌, ◌↔◌, length, take, IsTrue, OnOk, OnErr};
ghost use Rattle.std.specs.List.{AllByRecursion, flat_map};
ghost use Rattle.dns_wire.specs.Ranges.{IsQuestion, IsRecord, IsHeader, IsMessage};
ghost use Rattle.dns_wire.specs.Message.{Spells};
ghost use Rattle.dns_wire.specs.Encoding.{header_wire, counts_of, question_wire, record_wire, message_wire, LeavesRoom};

use crate::append::{append, append_u16, append_u32};
use crate::limits::{HEADER, MOST_BYTES};
use crate::message::{Counts, Header, Message};
use crate::question::Question;
use crate::record::Record;
use enum_base::{Bytes, MemoryFault};

/// Why a message was not encoded.
#[derive(Clone, Copy, Debug, PartialEq, Eq)]
pub enum EncodeFault {
    /// It has more than 65,535 bytes, which no length on a stream tells (RFC 1035, 4.2.2).
    TooLong,
    /// Out of memory.
    Memory,
}

impl From<MemoryFault> for EncodeFault {
    ghost use Rattle.dns_wire.specs.declared.encoding.EncodeFault.TheVariants.{Memory};

    ghost from_gives = { λ memory fault. fault ≡ Memory };

    fn from(_memory: MemoryFault) -> Self {
        EncodeFault::Memory
    }
}

/// Appends the message, its names without pointers (RFC 1035, 4.1).
///
/// # Errors
/// `TooLong` exactly where it has more than 65,535 bytes; `Memory`. Nothing is appended then.
pub fn encode(message: &Message, out: &mut Bytes) -> Result<(), EncodeFault>
    ensures ok { OnOk result (out.new ≡ out.old ++ message_wire message.now) }
    ensures spells { OnOk result (Spells (message_wire message.now) message.now) }
    ensures too_long { (result ≡ Err EncodeFault.TooLong) ↔ (65_535 < length (message_wire message.now)) }
    ensures err { OnErr result (out.new ≡ out.old) }
{
    if !is_short(message) {
        return Err(EncodeFault::TooLong);
    }
    write_whole(message, out)?;
    Ok(())
}

// Whether the message has at most 65,535 bytes.
fn is_short(message: &Message) -> bool
    ensures { IsTrue result ↔ (length (message_wire message.now) ≤ 65_535) }
{
    match after_message(message) {
        Some(_) => true,
        None => false,
    }
}

// What the message leaves of 65,535 bytes, if it has no more. It stops at the first question or record that passes them.
fn after_message(message: &Message) -> Option<usize>
    ensures { LeavesRoom 65_535 (message_wire message.now) result }
{
    let room = after_questions(message.questions.as_slice(), MOST_BYTES - HEADER)?;
    let room = after_records(message.answers.as_slice(), room)?;
    let room = after_records(message.authority.as_slice(), room)?;
    after_records(message.additional.as_slice(), room)
}

// What the questions leave of that many bytes.
fn after_questions(questions: &[Question], room: usize) -> Option<usize>
    ensures { LeavesRoom room (flat_map question_wire questions.now) result }
{
    let mut left = room;
    for question in questions {
        left = after_question(question, left)?;
    }
    Some(left)
}

// What the question leaves of that many bytes.
fn after_question(question: &Question, room: usize) -> Option<usize>
    ensures { LeavesRoom room (question_wire question.now) result }
{
    room.checked_sub(question.name.wire().len() + 4)
}

// What the records leave of that many bytes.
fn after_records(records: &[Record], room: usize) -> Option<usize>
    ensures { LeavesRoom room (flat_map record_wire records.now) result }
{
    let mut left = room;
    for one in records {
        left = after_record(one, left)?;
    }
    Some(left)
}

// What the record leaves of that many bytes.
fn after_record(one: &Record, room: usize) -> Option<usize>
    ensures { LeavesRoom room (record_wire one.now) result }
{
    let left = room.checked_sub(one.owner.wire().len() + 10)?;
    left.checked_sub(one.content.rdata_len())
}

// Appends the message, all or nothing.
fn write_whole(message: &Message, out: &mut Bytes) -> Result<(), MemoryFault>
    requires { length (message_wire message.now) ≤ 65_535 }
    ensures ok { OnOk result (out.new ≡ out.old ++ message_wire message.now) }
    ensures err { OnErr result (out.new ≡ out.old) }
    ensures fits { OnOk result (IsMessage message.now) }
{
    let held = out.as_slice().len();
    let written = write_message(message, out);
    if written.is_err() {
        out.truncate(held);
    }
    written
}

// Appends the message; when out of memory, the front is as it was. So do the functions below.
fn write_message(message: &Message, out: &mut Bytes) -> Result<(), MemoryFault>
    requires { length (message_wire message.now) ≤ 65_535 }
    ensures ok { OnOk result (out.new ≡ out.old ++ message_wire message.now) }
    ensures front { take (length out.old) out.new ≡ out.old }
    ensures fits { OnOk result (IsMessage message.now) }
{
    let counts = counts(message);
    write_header(&message.header, &counts, out)?;
    write_questions(message.questions.as_slice(), out)?;
    write_records(message.answers.as_slice(), out)?;
    write_records(message.authority.as_slice(), out)?;
    write_records(message.additional.as_slice(), out)
}

// Appends the header.
fn write_header(header: &Header, counts: &Counts, out: &mut Bytes) -> Result<(), MemoryFault>
    ensures ok { OnOk result (out.new ≡ out.old ++ header_wire header.now counts.now) }
    ensures front { take (length out.old) out.new ≡ out.old }
    ensures fits { OnOk result (IsHeader header.now) }
{
    append_u16(header.id, out)?;
    append_u16(header.bits, out)?;
    append_u16(counts.questions, out)?;
    append_u16(counts.answers, out)?;
    append_u16(counts.authority, out)?;
    append_u16(counts.additional, out)
}

// How many items the lists have.
fn counts(message: &Message) -> Counts
    ensures { result ≡ counts_of message.now }
{
    Counts {
        questions: message.questions.as_slice().len() as u16,
        answers: message.answers.as_slice().len() as u16,
        authority: message.authority.as_slice().len() as u16,
        additional: message.additional.as_slice().len() as u16,
    }
}

// Appends the questions.
fn write_questions(questions: &[Question], out: &mut Bytes) -> Result<(), MemoryFault>
    ensures ok { OnOk result (out.new ≡ out.old ++ flat_map question_wire questions.now) }
    ensures front { take (length out.old) out.new ≡ out.old }
    ensures fits { OnOk result (AllByRecursion IsQuestion questions.now) }
{
    for question in questions {
        write_question(question, out)?;
    }
    Ok(())
}

// Appends the question.
fn write_question(question: &Question, out: &mut Bytes) -> Result<(), MemoryFault>
    ensures ok { OnOk result (out.new ≡ out.old ++ question_wire question.now) }
    ensures front { take (length out.old) out.new ≡ out.old }
    ensures fits { OnOk result (IsQuestion question.now) }
{
    append(question.name.wire(), out)?;
    append_u16(question.kind, out)?;
    append_u16(question.class, out)
}

// Appends the records.
fn write_records(records: &[Record], out: &mut Bytes) -> Result<(), MemoryFault>
    requires { length (flat_map record_wire records.now) ≤ 65_535 }
    ensures ok { OnOk result (out.new ≡ out.old ++ flat_map record_wire records.now) }
    ensures front { take (length out.old) out.new ≡ out.old }
    ensures fits { OnOk result (AllByRecursion IsRecord records.now) }
{
    for one in records {
        write_record(one, out)?;
    }
    Ok(())
}

// Appends the record.
fn write_record(one: &Record, out: &mut Bytes) -> Result<(), MemoryFault>
    requires { length (record_wire one.now) ≤ 65_535 }
    ensures ok { OnOk result (out.new ≡ out.old ++ record_wire one.now) }
    ensures front { take (length out.old) out.new ≡ out.old }
    ensures fits { OnOk result (IsRecord one.now) }
{
    append(one.owner.wire(), out)?;
    append_u16(one.kind, out)?;
    append_u16(one.class, out)?;
    append_u32(one.ttl, out)?;
    append_u16(one.content.rdata_len() as u16, out)?;
    one.content.write(out)
}

//! Messages from bytes.
ghost use Rattle.std.specs.Prelude.{◌≡◌, ◌≢◌, ◌⊎◌, ◌≤◌, length, Ok, Err, IfOk};
ghost use Rattle.dns_wire.specs.Message.{HeaderAt, ItemsAt, QuestionAt, RecordAt, MessageIs, Spells, Breaks};
ghost use Rattle.dns_wire.specs.Outcome.{OrMemory};
ghost use Rattle.dns_wire.specs.declared.message.Message.{Message};
ghost use Rattle.dns_wire.specs.declared.decode_fault.DecodeFault.{DecodeFault};
ghost use Rattle.dns_wire.specs.declared.decode_fault.DecodeFault.TheVariants.{Memory};

use crate::decode_fault::DecodeFault;
use crate::field::u16_at;
use crate::limits::HEADER;
use crate::message::{Counts, Header, Message};
use crate::question::Questions;
use crate::reading::{question_at, record_at};
use crate::record::Records;
use dns_name::MessageBytes;
use std::alloc::Global;

/// The message that the bytes are (RFC 1035, 4.1; RFC 6891).
///
/// # Errors
/// The first field in the order of reading that cannot be read, with its place; bytes after the last record; out of memory.
pub fn decode(alloc: Global, bytes: &[u8]) -> Result<Message, DecodeFault>
    ensures message { (message : Message) → result ≡ Ok message → Spells bytes.now message }
    ensures fault { (fault : DecodeFault) → result ≡ Err fault → fault ≢ Memory → Breaks bytes.now fault }
    ensures spelt { (message : Message) → Spells bytes.now message → (result ≡ Ok message) ⊎ (result ≡ Err Memory) }
    ensures broken { (fault : DecodeFault) → Breaks bytes.now fault → (result ≡ Err fault) ⊎ (result ≡ Err Memory) }
{
    decode_inner(alloc, bytes)
}

// The same, by one clause.
fn decode_inner(alloc: Global, bytes: &[u8]) -> Result<Message, DecodeFault>
    ensures { OrMemory (MessageIs bytes.now) result }
{
    let message = MessageBytes::with_targets(alloc, bytes)?;
    message_of(alloc, &message)
}

// The message that the bytes are.
fn message_of(alloc: Global, message: &MessageBytes<'_>) -> Result<Message, DecodeFault>
    ensures { OrMemory (MessageIs message.now) result }
{
    let (header, counts) = header_of(message)?;
    let (questions, at_answers) = questions_at(alloc, message, counts.questions)?;
    let (answers, at_authority) = records_at(alloc, message, counts.answers, at_answers)?;
    let (authority, at_additional) = records_at(alloc, message, counts.authority, at_authority)?;
    let (additional, end) = records_at(alloc, message, counts.additional, at_additional)?;
    if end < message.len() {
        return Err(DecodeFault::Trailing { at: end });
    }
    Ok(Message {
        header,
        questions,
        answers,
        authority,
        additional,
    })
}

// The header and its counts.
fn header_of(message: &MessageBytes<'_>) -> Result<(Header, Counts), DecodeFault>
    ensures header { HeaderAt message.now result }
    ensures within { IfOk result (λ read. 12 ≤ length message.now) }
{
    if message.len() < HEADER {
        return Err(DecodeFault::Short { at: 0 });
    }
    let (id, at_bits) = u16_at(message, 0)?;
    let (bits, at_questions) = u16_at(message, at_bits)?;
    let (questions, at_answers) = u16_at(message, at_questions)?;
    let (answers, at_authority) = u16_at(message, at_answers)?;
    let (authority, at_additional) = u16_at(message, at_authority)?;
    let (additional, _) = u16_at(message, at_additional)?;
    let counts = Counts {
        questions,
        answers,
        authority,
        additional,
    };
    Ok((Header { id, bits }, counts))
}

// That many questions after the header, and the place after them.
fn questions_at(
    alloc: Global,
    message: &MessageBytes<'_>,
    count: u16,
) -> Result<(Questions, usize), DecodeFault>
    requires header { 12 ≤ length message.now }
    ensures questions { OrMemory (ItemsAt (QuestionAt message.now) count 12) result }
    ensures within { IfOk result (λ read. read.1 ≤ length message.now) }
{
    let mut questions = Questions::new(alloc);
    let mut at = HEADER;
    'questions: for _index in 0..count {
        let (question, next) = question_at(message, at)?;
        questions.push(question)?;
        at = next;
    }
    Ok((questions, at))
}

// That many records from that place, and the place after them.
fn records_at(
    alloc: Global,
    message: &MessageBytes<'_>,
    count: u16,
    from: usize,
) -> Result<(Records, usize), DecodeFault>
    requires place { from ≤ length message.now }
    ensures records { OrMemory (ItemsAt (RecordAt message.now) count from) result }
    ensures within { IfOk result (λ read. read.1 ≤ length message.now) }
{
    let mut records = Records::new(alloc);
    let mut at = from;
    'records: for _index in 0..count {
        let (record, next) = record_at(alloc, message, at)?;
        records.push(record)?;
        at = next;
    }
    Ok((records, at))
}

//! How a message is shown.
ghost use Rattle.std.specs.Prelude.{◌≡◌, ◌++◌, OnOk, IfOk};
ghost use Rattle.std.specs.List.{flat_map};
ghost use Rattle.std.specs.Int.{to_be_bytes};
ghost use Rattle.hex.specs.Hex.{encode_lower};
ghost use Rattle.message_text.specs.Shown.{bytes_text, content_text, header_line, question_line, record_line, shown};

use crate::kind::push_kind;
use dns_wire::{Content, Message, Question, Record};
use enum_base::{Bytes, MemoryFault, push_number};
use std::alloc::Global;
use zone_text::write_fields;

/// The lines of a message: `message`, its id, its bits in four hexadecimal digits and its four counts; `question`,
/// name, type and class of each question; and of each record `answer`, `authority` or `additional`, owner, TTL, class,
/// type and fields.
///
/// Owners and names of questions are folded. A type is one of the ten names, `OPT`, or `TYPE` and its number. Fields
/// are those of a zone text; options, and RDATA that is not read, are in hexadecimal digits, `-` where there are none.
///
/// # Errors
/// `MemoryFault` when out of memory.
pub fn print_message(alloc: Global, message: &Message) -> Result<Bytes, MemoryFault>
    ensures { IfOk result (λ text. text ≡ shown message.now) }
{
    let mut text = Bytes::new(alloc);
    push_header(alloc, message, &mut text)?;
    push_questions(message.questions.as_slice(), &mut text)?;
    push_records(alloc, b"answer", message.answers.as_slice(), &mut text)?;
    push_records(alloc, b"authority", message.authority.as_slice(), &mut text)?;
    push_records(
        alloc,
        b"additional",
        message.additional.as_slice(),
        &mut text,
    )?;
    Ok(text)
}

fn push_header(alloc: Global, message: &Message, out: &mut Bytes) -> Result<(), MemoryFault>
    ensures { OnOk result (out.new ≡ out.old ++ header_line message.now) }
{
    push_number(b"message ", usize::from(message.header.id), out)?;
    out.push_slice(b" ")?;
    push_digits(alloc, &message.header.bits.to_be_bytes(), out)?;
    push_number(b" ", message.questions.as_slice().len(), out)?;
    push_number(b" ", message.answers.as_slice().len(), out)?;
    push_number(b" ", message.authority.as_slice().len(), out)?;
    push_number(b" ", message.additional.as_slice().len(), out)?;
    out.push_slice(b"\n")
}

fn push_questions(questions: &[Question], out: &mut Bytes) -> Result<(), MemoryFault>
    ensures { OnOk result (out.new ≡ out.old ++ flat_map question_line questions.now) }
{
    for question in questions {
        push_question(question, out)?;
    }
    Ok(())
}

fn push_question(question: &Question, out: &mut Bytes) -> Result<(), MemoryFault>
    ensures { OnOk result (out.new ≡ out.old ++ question_line question.now) }
{
    out.push_slice(b"question ")?;
    question.name.fold().to_text(out)?;
    out.push_slice(b" ")?;
    push_kind(question.kind, out)?;
    push_number(b" ", usize::from(question.class), out)?;
    out.push_slice(b"\n")
}

// The lines of the records of one section.
fn push_records(
    alloc: Global,
    section: &[u8],
    records: &[Record],
    out: &mut Bytes,
) -> Result<(), MemoryFault>
    ensures { OnOk result (out.new ≡ out.old ++ flat_map (record_line section.now) records.now) }
{
    for record in records {
        push_record(alloc, section, record, out)?;
    }
    Ok(())
}

fn push_record(
    alloc: Global,
    section: &[u8],
    one: &Record,
    out: &mut Bytes,
) -> Result<(), MemoryFault>
    ensures { OnOk result (out.new ≡ out.old ++ record_line section.now one.now) }
{
    out.push_slice(section)?;
    out.push_slice(b" ")?;
    one.owner.fold().to_text(out)?;
    push_number(b" ", one.ttl as usize, out)?;
    push_number(b" ", usize::from(one.class), out)?;
    out.push_slice(b" ")?;
    push_kind(one.kind, out)?;
    out.push_slice(b" ")?;
    push_content(alloc, one, out)?;
    out.push_slice(b"\n")
}

fn push_content(alloc: Global, one: &Record, out: &mut Bytes) -> Result<(), MemoryFault>
    ensures { OnOk result (out.new ≡ out.old ++ content_text one.now.content) }
{
    match &one.content {
        Content::Opt(bytes) | Content::Raw(bytes) => push_bytes(alloc, bytes.as_slice(), out),
        content => write_fields(content, out),
    }
}

// Bytes in hexadecimal digits, or `-` where there are none.
fn push_bytes(alloc: Global, bytes: &[u8], out: &mut Bytes) -> Result<(), MemoryFault>
    ensures { OnOk result (out.new ≡ out.old ++ bytes_text bytes.now) }
{
    if bytes.is_empty() {
        out.push_slice(b"-")
    } else {
        push_digits(alloc, bytes, out)
    }
}

// Bytes in small hexadecimal digits.
fn push_digits(alloc: Global, bytes: &[u8], out: &mut Bytes) -> Result<(), MemoryFault>
    ensures { OnOk result (out.new ≡ out.old ++ encode_lower bytes.now) }
{
    let digits = hex::encode(alloc, bytes)?;
    out.push_slice(digits.as_bytes())
}

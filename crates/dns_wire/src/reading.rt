//! Questions and records in messages.
ghost use Rattle.std.specs.Prelude.{◌<◌, ◌≤◌, length, IfOk};
ghost use Rattle.dns_wire.specs.Message.{NameRead, QuestionAt, LengthAt, RecordAt};
ghost use Rattle.dns_wire.specs.Outcome.{OrMemory};

use crate::content_reading::content_in;
use crate::decode_fault::DecodeFault;
use crate::field::{u16_at, u32_at};
use crate::form::form_of;
use crate::question::Question;
use crate::record::Record;
use dns_name::{MessageBytes, Name};
use std::alloc::Global;

/// The question at that place, and the place after it (RFC 1035, 4.1.2).
///
/// # Errors
/// The first of its fields that cannot be read.
pub(crate) fn question_at(
    message: &MessageBytes<'_>,
    at: usize,
) -> Result<(Question, usize), DecodeFault>
    requires place { at ≤ length message.now }
    ensures question { QuestionAt message.now at result }
    ensures within { IfOk result (λ read. (at < read.1) × (read.1 ≤ length message.now)) }
{
    let (name, at_kind) = name_at(message, at)?;
    let (kind, at_class) = u16_at(message, at_kind)?;
    let (class, end) = u16_at(message, at_class)?;
    Ok((Question { name, kind, class }, end))
}

/// The record at that place, and the place after it (RFC 1035, 4.1.3).
///
/// # Errors
/// The first of its fields that cannot be read, or `Memory`.
pub(crate) fn record_at(
    alloc: Global,
    message: &MessageBytes<'_>,
    at: usize,
) -> Result<(Record, usize), DecodeFault>
    requires place { at ≤ length message.now }
    ensures record { OrMemory (RecordAt message.now at) result }
    ensures within { IfOk result (λ read. (at < read.1) × (read.1 ≤ length message.now)) }
{
    let (owner, at_kind) = name_at(message, at)?;
    let (kind, at_class) = u16_at(message, at_kind)?;
    let (class, at_ttl) = u16_at(message, at_class)?;
    let (ttl, at_length) = u32_at(message, at_ttl)?;
    let (to, from) = length_at(message, at_length)?;
    let content = content_in(alloc, form_of(kind, class), message, from, to)?;
    let record = Record {
        owner,
        kind,
        class,
        ttl,
        content,
    };
    Ok((record, to))
}

// The name at that place, and the place after it.
fn name_at(message: &MessageBytes<'_>, at: usize) -> Result<(Name, usize), DecodeFault>
    requires place { at ≤ length message.now }
    ensures name { NameRead message.now at result }
    ensures within { IfOk result (λ read. (at < read.1) × (read.1 ≤ length message.now)) }
{
    Ok(message.name_at(at)?)
}

// The place where the RDATA ends by the RDLENGTH at that place, and the place where it begins.
fn length_at(message: &MessageBytes<'_>, at: usize) -> Result<(usize, usize), DecodeFault>
    requires { at ≤ length message.now }
    ensures length { LengthAt message.now at result }
    ensures within { IfOk result (λ read. (at < read.1) × (read.1 ≤ read.0) × (read.0 ≤ length message.now)) }
{
    let (size, from) = u16_at(message, at)?;
    let size = usize::from(size);
    if message.len() - from < size {
        return Err(DecodeFault::RdataLength { at });
    }
    Ok((from + size, from))
}

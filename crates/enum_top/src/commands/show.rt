//! `show`: the message that the input spells in hexadecimal (RFC 1035, section 4).
ghost use Rattle.std.specs.Prelude.{◌≡◌, IfOk, IsErrOf};
ghost use Rattle.enum_top.specs.Handling.{ReadsInput};
ghost use Rattle.enum_top.specs.Running.{DoesAlone, DoesOnInput};
ghost use Rattle.enum_top.specs.Showing.{Digits, Hexes, Messages, Shows, digits_in, is_blank};

use crate::cause::Cause;
use crate::input::read_input;
use crate::objects::Object;
use crate::status::{Ending, Printed};
use crate::why::Why;
use dns_wire::{DecodeFault, Message, decode};
use enum_base::{Bytes, MemoryFault, Source};
use hex::FromHexError;
use message_text::print_message;
use std::alloc::Global;

/// Prints the message that the digits of the input spell. At most 16 MiB and 4,096 bytes of the input are taken.
///
/// # Errors
/// `Judged` where the input is too large, its digits are no bytes, or the bytes no message; `Outside` where the
/// input failed, and `Memory`.
pub(crate) fn show_text<I: Source>(alloc: Global, input: &mut I) -> Result<Printed, Why>
    ensures does { DoesOnInput (Shows (I.state input.old).left) result }
    ensures input { ReadsInput (I.state input.old) (I.state input.new) (IsErrOf result (Why.Outside Object.Input)) }
{
    let text = read_input(alloc, input)?;
    let bytes = read_hex(alloc, &text)?;
    let message = read_message(alloc, &bytes)?;
    let text = print_message(alloc, &message)?;
    Ok(Printed {
        ending: Ending::Done,
        text,
    })
}

// The bytes that the digits of a text spell.
fn read_hex(alloc: Global, text: &Bytes) -> Result<Bytes, Why>
    ensures { DoesAlone (Hexes text.now) result }
{
    let digits = digits_of(alloc, text.as_slice())?;
    read_digits(alloc, digits.as_slice())
}

// A text without its blanks.
fn digits_of(alloc: Global, text: &[u8]) -> Result<Vec<u8>, MemoryFault>
    ensures { IfOk result (λ digits. digits.items ≡ digits_in text.now) }
{
    Ok(
        text.iter()
            .copied()
            .filter(|byte| !is_blank(*byte))
            .collect(alloc)?,
    )
}

fn is_blank(byte: u8) -> bool
    ensures { result ≡ is_blank byte }
{
    matches!(byte, b'\t' | b'\n' | b'\r' | b' ')
}

// The bytes that digits spell.
fn read_digits(alloc: Global, digits: &[u8]) -> Result<Bytes, Why>
    ensures { DoesAlone (Digits digits.now) result }
{
    let spelled = match hex::decode(alloc, digits) {
        Ok(spelled) => spelled,
        Err(FromHexError::OutOfMemory) => return Err(Why::Memory),
        Err(_) => return Err(Why::Judged(Cause::Hex)),
    };
    let mut bytes = Bytes::new(alloc);
    bytes.push_slice(spelled.as_slice())?;
    Ok(bytes)
}

// The message that bytes spell.
fn read_message(alloc: Global, bytes: &Bytes) -> Result<Message, Why>
    ensures { DoesAlone (Messages bytes.now) result }
{
    match decode(alloc, bytes.as_slice()) {
        Ok(message) => Ok(message),
        Err(DecodeFault::Memory) => Err(Why::Memory),
        Err(fault) => Err(Why::Judged(Cause::Message(fault))),
    }
}

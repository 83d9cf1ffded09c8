//! Laws of messages.
ghost use Rattle.std.specs.Prelude.{◌≡◌, ◌<◌, ◌↔◌, length, Err, IfOk};
ghost use Rattle.dns_wire.specs.Encoding.{message_wire};
ghost use Rattle.dns_wire.specs.Laws.{OneMessage, OneBreak, NoMemory, NotBoth, MessageOrBreak, ReadsBack};
ghost use Rattle.dns_wire.specs.Framing.{SomeCut, OneCut};

use crate::decoding::decode;
use crate::encoding::{EncodeFault, encode};
use crate::message::Message;
use enum_base::Bytes;
use std::alloc::Global;

/// Bytes spell one message or have one fault, which is never that it is out of memory, and never both.
pub fn message_is_one()
    ensures one_message { OneMessage }
    ensures one_break { OneBreak }
    ensures no_memory { NoMemory }
    ensures not_both { NotBoth }
    ensures some { MessageOrBreak }
{}

/// What is written for a message of at most 65,535 bytes spells it: whoever reads it has the message again.
pub fn written_message_is_read_again()
    ensures { ReadsBack }
{}

/// A message that is written by `encode` and read by `decode`: the same message again.
///
/// # Errors
/// As `encode`: `TooLong` exactly where it has more than 65,535 bytes, and `Memory`.
pub fn read_back(alloc: Global, message: &Message) -> Result<Message, EncodeFault>
    ensures same { IfOk result (λ again. again ≡ message.now) }
    ensures too_long { (result ≡ Err EncodeFault.TooLong) ↔ (65_535 < length (message_wire message.now)) }
{
    let mut wire = Bytes::new(alloc);
    encode(message, &mut wire)?;
    match decode(alloc, wire.as_slice()) {
        Ok(again) => Ok(again),
        Err(_) => Err(EncodeFault::Memory),
    }
}

/// A stream is whole messages and a rest that is no whole message in one way.
pub fn stream_has_one_cut()
    ensures some { SomeCut }
    ensures one { OneCut }
{}

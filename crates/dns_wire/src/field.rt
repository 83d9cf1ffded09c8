//! Numbers in messages, outside RDATA.
ghost use Rattle.std.specs.Prelude.{◌<◌, ◌≤◌, length, IfOk};
ghost use Rattle.dns_wire.specs.Message.{U16At, U32At};

use crate::decode_fault::DecodeFault;
use dns_name::MessageBytes;

/// The number of 16 bits at that place, the high byte first, and the place after it.
///
/// # Errors
/// `Short` where its two bytes do not lie in the message.
pub(crate) fn u16_at(message: &MessageBytes<'_>, at: usize) -> Result<(u16, usize), DecodeFault>
    requires { at ≤ length message.now }
    ensures number { U16At message.now at result }
    ensures within { IfOk result (λ read. (at < read.1) × (read.1 ≤ length message.now)) }
{
    if message.len() - at < 2 {
        return Err(DecodeFault::Short { at });
    }
    Ok((message.u16_at(at), at + 2))
}

/// The number of 32 bits at that place, the high byte first, and the place after it.
///
/// # Errors
/// `Short` where its four bytes do not lie in the message.
pub(crate) fn u32_at(message: &MessageBytes<'_>, at: usize) -> Result<(u32, usize), DecodeFault>
    requires { at ≤ length message.now }
    ensures number { U32At message.now at result }
    ensures within { IfOk result (λ read. (at < read.1) × (read.1 ≤ length message.now)) }
{
    if message.len() - at < 4 {
        return Err(DecodeFault::Short { at });
    }
    Ok((message.u32_at(at), at + 4))
}

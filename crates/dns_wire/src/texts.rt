//! The texts of a TXT record in a message.
ghost use Rattle.std.specs.Prelude.{◌≤◌, length};
ghost use Rattle.dns_wire.specs.Contents.{TextsIn};
ghost use Rattle.dns_wire.specs.Outcome.{ToldAs, OrMemory};
ghost use Rattle.dns_wire.specs.DecodeFaults.{of_rdata};

use crate::content::Texts;
use crate::decode_fault::DecodeFault;
use dns_name::MessageBytes;
use rdata_field::text_in;
use std::alloc::Global;

/// The character-strings of the RDATA, of which there is one at least (RFC 1035, 3.3.14).
///
/// # Errors
/// `RdataShape` at the character-string that does not lie in the RDATA; where there is none, at the start.
pub(crate) fn texts_in(
    alloc: Global,
    message: &MessageBytes<'_>,
    from: usize,
    to: usize,
) -> Result<Texts, DecodeFault>
    requires begin { from ≤ to }
    requires end { to ≤ length message.now }
    ensures { OrMemory (ToldAs of_rdata (TextsIn message.now from to)) result }
{
    let mut texts = Texts::new(alloc);
    let (first, mut at) = text_in(message, from, to)?;
    texts.push(first)?;
    'texts: while at < to {
        let (text, next) = text_in(message, at, to)?;
        texts.push(text)?;
        at = next;
    }
    Ok(texts)
}

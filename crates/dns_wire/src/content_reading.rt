//! The content of RDATA in a message, by its form.
ghost use Rattle.std.specs.Prelude.{◌≤◌, length};
ghost use Rattle.dns_wire.specs.Contents.{ContentIn};
ghost use Rattle.dns_wire.specs.DecodeFaults.{of_rdata};
ghost use Rattle.dns_wire.specs.Outcome.{ToldAs, OrMemory};

use crate::content::{Content, copy_bytes};
use crate::decode_fault::DecodeFault;
use crate::form::Form;
use crate::rdata::{read_address, read_last_name, read_mx, read_soa, read_srv};
use crate::texts::texts_in;
use dns_name::MessageBytes;
use naptr_rule::rule_in;
use std::alloc::Global;

/// The content of that form in the RDATA between two places.
///
/// # Errors
/// `RdataShape` where a field, label or pointer does not lie wholly in the RDATA, or the content ends before it does; the fault of
/// a name; `Memory`.
pub(crate) fn content_in(
    alloc: Global,
    form: Form,
    message: &MessageBytes<'_>,
    from: usize,
    to: usize,
) -> Result<Content, DecodeFault>
    requires begin { from ≤ to }
    requires end { to ≤ length message.now }
    ensures { OrMemory (ToldAs of_rdata (ContentIn form message.now from to)) result }
{
    match form {
        Form::A => Ok(Content::A(read_address(message, from, to)?)),
        Form::Ns => Ok(Content::Ns(read_last_name(message, from, to)?)),
        Form::Cname => Ok(Content::Cname(read_last_name(message, from, to)?)),
        Form::Soa => Ok(Content::Soa(read_soa(message, from, to)?)),
        Form::Ptr => Ok(Content::Ptr(read_last_name(message, from, to)?)),
        Form::Mx => Ok(read_mx(message, from, to)?),
        Form::Txt => Ok(Content::Txt(texts_in(alloc, message, from, to)?)),
        Form::Aaaa => Ok(Content::Aaaa(read_address(message, from, to)?)),
        Form::Srv => Ok(read_srv(message, from, to)?),
        Form::Naptr => Ok(Content::Naptr(rule_in(message, from, to)?)),
        Form::Opt => Ok(Content::Opt(copy_bytes(alloc, &message.as_slice()[from..to])?)),
        Form::Raw => Ok(Content::Raw(copy_bytes(alloc, &message.as_slice()[from..to])?)),
    }
}

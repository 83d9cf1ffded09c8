//! The content of RDATA in a message.
ghost use Rattle.std.specs.Prelude.{◌<◌, ◌≤◌, length, IfOk};
ghost use Rattle.rdata_field.specs.Fields.{AddressIn, NameIn};
ghost use Rattle.dns_wire.specs.Contents.{SoaIn, LastIn, ContentIn};
ghost use Rattle.dns_wire.specs.declared.form.Form.TheVariants as form;

use crate::content::{Content, Soa};
use dns_name::{MessageBytes, Name};
use rdata_field::{InFault, address_in, ends_in, name_in, u16_in, u32_in};

/// The address of that many bytes that the RDATA is (RFC 1035, 3.4.1; RFC 3596, 2.2).
pub(crate) fn read_address<const N: usize>(
    message: &MessageBytes<'_>,
    from: usize,
    to: usize,
) -> Result<[u8; N], InFault>
    requires begin { from ≤ to }
    requires end { to ≤ length message.now }
    ensures { LastIn (AddressIn N message.now to) to from result }
{
    let (bytes, end) = address_in(message, from, to)?;
    ends_in(bytes, end, to)
}

/// The name that the RDATA ends with.
pub(crate) fn read_last_name(
    message: &MessageBytes<'_>,
    from: usize,
    to: usize,
) -> Result<Name, InFault>
    requires begin { from ≤ to }
    requires end { to ≤ length message.now }
    ensures { LastIn (NameIn message.now to) to from result }
{
    let (name, end) = name_in(message, from, to)?;
    ends_in(name, end, to)
}

/// The data of an SOA record that the RDATA is (RFC 1035, 3.3.13).
pub(crate) fn read_soa(message: &MessageBytes<'_>, from: usize, to: usize) -> Result<Soa, InFault>
    requires begin { from ≤ to }
    requires end { to ≤ length message.now }
    ensures { LastIn (SoaIn message.now to) to from result }
{
    let (soa, end) = soa_in(message, from, to)?;
    ends_in(soa, end, to)
}

// The fields of an SOA record.
fn soa_in(message: &MessageBytes<'_>, from: usize, to: usize) -> Result<(Soa, usize), InFault>
    requires begin { from ≤ to }
    requires end { to ≤ length message.now }
    ensures soa { SoaIn message.now to from result }
    ensures within { IfOk result (λ read. (from < read.1) × (read.1 ≤ to)) }
{
    let (mname, at_rname) = name_in(message, from, to)?;
    let (rname, at_serial) = name_in(message, at_rname, to)?;
    let (serial, at_refresh) = u32_in(message, at_serial, to)?;
    let (refresh, at_retry) = u32_in(message, at_refresh, to)?;
    let (retry, at_expire) = u32_in(message, at_retry, to)?;
    let (expire, at_minimum) = u32_in(message, at_expire, to)?;
    let (minimum, end) = u32_in(message, at_minimum, to)?;
    let soa = Soa {
        mname,
        rname,
        serial,
        refresh,
        retry,
        expire,
        minimum,
    };
    Ok((soa, end))
}

/// A preference and a mail exchange (RFC 1035, 3.3.9).
pub(crate) fn read_mx(
    message: &MessageBytes<'_>,
    from: usize,
    to: usize,
) -> Result<Content, InFault>
    requires begin { from ≤ to }
    requires end { to ≤ length message.now }
    ensures { ContentIn form.Mx message.now from to result }
{
    let (preference, at_exchange) = u16_in(message, from, to)?;
    let exchange = read_last_name(message, at_exchange, to)?;
    Ok(Content::Mx(preference, exchange))
}

/// A priority, a weight, a port and a target (RFC 2782).
pub(crate) fn read_srv(
    message: &MessageBytes<'_>,
    from: usize,
    to: usize,
) -> Result<Content, InFault>
    requires begin { from ≤ to }
    requires end { to ≤ length message.now }
    ensures { ContentIn form.Srv message.now from to result }
{
    let (priority, at_weight) = u16_in(message, from, to)?;
    let (weight, at_port) = u16_in(message, at_weight, to)?;
    let (port, at_target) = u16_in(message, at_port, to)?;
    let target = read_last_name(message, at_target, to)?;
    Ok(Content::Srv(priority, weight, port, target))
}

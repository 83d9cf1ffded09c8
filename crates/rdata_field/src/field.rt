//! The fields of RDATA in a message. Each is read at a place and lies before `to`, where the RDATA ends.
ghost use Rattle.std.specs.Prelude.{◌<◌, ◌≤◌, length, IfOk, IfSome, MatchOption};
ghost use Rattle.rdata_field.specs.Strings.{string_wire};
ghost use Rattle.rdata_field.specs.Fields.{StandsWithin, TextIsCut, U16In, U32In, AddressIn, TextIn, NameIn, EndsIn};

use crate::in_fault::InFault;
use dns_name::{MessageBytes, Name};
use enum_base::Text255;

/// The number of 16 bits at that place, the high byte first, and the place after it.
///
/// # Errors
/// `Shape` at its place where its two bytes do not lie before `to`.
pub fn u16_in(message: &MessageBytes<'_>, at: usize, to: usize) -> Result<(u16, usize), InFault>
    requires begin { at ≤ to }
    requires end { to ≤ length message.now }
    ensures number { U16In message.now to at result }
    ensures within { IfOk result (λ read. (at < read.1) × (read.1 ≤ to)) }
{
    if to - at < 2 {
        return Err(InFault::Shape { at });
    }
    Ok((message.u16_at(at), at + 2))
}

/// The number of 32 bits at that place, the high byte first, and the place after it.
///
/// # Errors
/// `Shape` at its place where its four bytes do not lie before `to`.
pub fn u32_in(message: &MessageBytes<'_>, at: usize, to: usize) -> Result<(u32, usize), InFault>
    requires begin { at ≤ to }
    requires end { to ≤ length message.now }
    ensures number { U32In message.now to at result }
    ensures within { IfOk result (λ read. (at < read.1) × (read.1 ≤ to)) }
{
    if to - at < 4 {
        return Err(InFault::Shape { at });
    }
    Ok((message.u32_at(at), at + 4))
}

/// The address of that many bytes at that place, and the place after it.
///
/// # Errors
/// `Shape` at its place where they do not lie before `to`.
pub fn address_in<const N: usize>(
    message: &MessageBytes<'_>,
    at: usize,
    to: usize,
) -> Result<([u8; N], usize), InFault>
    requires begin { at ≤ to }
    requires end { to ≤ length message.now }
    ensures address { AddressIn N message.now to at result }
    ensures within { IfOk result (λ read. read.1 ≤ to) }
{
    if to - at < N {
        return Err(InFault::Shape { at });
    }
    let mut bytes = [0; N];
    bytes.copy_from_slice(&message.as_slice()[at..at + N]);
    Ok((bytes, at + N))
}

/// The character-string at that place, a length byte and as many bytes (RFC 1035, 3.3), and the place after it.
///
/// # Errors
/// `Shape` at its place where its length byte, or one of the bytes that this counts, does not lie before `to`.
pub fn text_in(
    message: &MessageBytes<'_>,
    at: usize,
    to: usize,
) -> Result<(Text255, usize), InFault>
    requires begin { at ≤ to }
    requires end { to ≤ length message.now }
    ensures text { TextIn message.now to at result }
    ensures within { IfOk result (λ read. (at < read.1) × (read.1 ≤ to)) }
{
    match string_of(&message.as_slice()[at..to]) {
        Some(text) => Ok((text, at + 1 + text.as_bytes().len())),
        None => Err(InFault::Shape { at }),
    }
}

// The character-string that the bytes begin with.
fn string_of(bytes: &[u8]) -> Option<Text255>
    ensures string { MatchOption result (TextIsCut bytes.now (length bytes.now) 0) (λ text. StandsWithin bytes.now 0 (length bytes.now) (string_wire text)) }
    ensures short { IfSome result (λ text. length text ≤ 255) }
{
    let (size, rest) = bytes.split_first()?;
    Text255::from_bytes(rest.get(..usize::from(*size))?)
}

/// The name at that place, whose first label run lies before `to`, and the place after it (RFC 1035, 4.1.4).
///
/// # Errors
/// `Shape` at the label or pointer of the first run that does not lie wholly before `to`; `Name` where the name is broken otherwise.
pub fn name_in(message: &MessageBytes<'_>, at: usize, to: usize) -> Result<(Name, usize), InFault>
    requires begin { at ≤ to }
    requires end { to ≤ length message.now }
    ensures name { NameIn message.now to at result }
    ensures within { IfOk result (λ read. (at < read.1) × (read.1 ≤ to)) }
{
    Ok(message.name_within(at, to)?)
}

/// The value whose last field ends at that place.
///
/// # Errors
/// `Shape` at that place where bytes are left before `to`.
pub fn ends_in<T: Drop>(value: T, at: usize, to: usize) -> Result<T, InFault>
    requires { at ≤ to }
    ensures { EndsIn to value at result }
{
    if at < to {
        return Err(InFault::Shape { at });
    }
    Ok(value)
}

//! What records say.
ghost use Rattle.std.specs.Prelude.{◌≡◌, ◌-◌, ◌^◌, ◌++◌, length, min, take, IfOk, OnOk};
ghost use Rattle.std.specs.List.{AllByRecursion, flat_map};
ghost use Rattle.rdata_field.specs.Strings.{string_wire};
ghost use Rattle.naptr_rule.specs.Rdata.{rdata};
ghost use Rattle.dns_wire.specs.Ranges.{AreBytes, IsText};

use crate::append::{append, append_u16, append_u32};
use crate::kinds;
use dns_name::Name;
use enum_base::{Bytes, List, MemoryFault, Text255};
use naptr_rule::Naptr;
use std::alloc::Global;

/// The character-strings of a TXT record (RFC 1035, 3.3.14).
pub type Texts = List<Text255>;

/// The data of an SOA record (RFC 1035, 3.3.13). The four times are in seconds.
#[derive(Clone, Copy, Debug, PartialEq, Eq)]
pub struct Soa {
    /// The server that the zone comes from.
    pub mname: Name,
    /// The mailbox of who is responsible for the zone.
    pub rname: Name,
    pub serial: u32,
    pub refresh: u32,
    pub retry: u32,
    pub expire: u32,
    /// How long it may be remembered that a name or a set is not there (RFC 2308).
    pub minimum: u32,
}

/// What a record says, by its kind.
#[derive(Drop)]
pub enum Content {
    /// An IPv4 address (RFC 1035, 3.4.1).
    A([u8; 4]),
    /// A server of the zone that begins at the owner (RFC 1035, 3.3.11).
    Ns(Name),
    /// The name that the owner is an alias for (RFC 1035, 3.3.1).
    Cname(Name),
    /// The start of a zone (RFC 1035, 3.3.13).
    Soa(Soa),
    /// Another name (RFC 1035, 3.3.12).
    Ptr(Name),
    /// A preference and a mail exchange (RFC 1035, 3.3.9).
    Mx(u16, Name),
    /// One or more texts (RFC 1035, 3.3.14).
    Txt(Texts),
    /// An IPv6 address (RFC 3596, 2.2).
    Aaaa([u8; 16]),
    /// A priority, a weight, a port and a target (RFC 2782).
    Srv(u16, u16, u16, Name),
    /// A rule (RFC 3403, 4.1).
    Naptr(Naptr),
    /// Options, as they stand (RFC 6891, 6.1.2).
    Opt(Bytes),
    /// The RDATA of any other kind or class, as it stands.
    Raw(Bytes),
}

impl Content {
    ghost use Rattle.dns_wire.specs.Kinds.{kind_of};
    ghost use Rattle.dns_wire.specs.Rdata.{rdata_of};
    ghost use Rattle.dns_wire.specs.Ranges.{IsContent};

    /// The RDATA, names without compression.
    ///
    /// # Errors
    /// Out of memory.
    pub fn rdata(&self, alloc: Global) -> Result<Bytes, MemoryFault>
        ensures { IfOk result (λ bytes. bytes ≡ rdata_of self.now) }
    {
        let mut out = Bytes::new(alloc);
        self.write(&mut out)?;
        Ok(out)
    }

    /// The length of the RDATA, or the greatest number where that is less, as of more texts than any memory holds.
    pub fn rdata_len(&self) -> usize
        ensures { result ≡ min (length (rdata_of self.now)) (2 ^ 64 - 1) }
    {
        match self {
            Content::A(address) => address_len(address),
            Content::Ns(name) | Content::Cname(name) | Content::Ptr(name) => name.wire().len(),
            Content::Soa(soa) => soa.rdata_len(),
            Content::Mx(_, exchange) => 2 + exchange.wire().len(),
            Content::Txt(texts) => texts_len(texts.as_slice()),
            Content::Aaaa(address) => address_len(address),
            Content::Srv(_, _, _, target) => 6 + target.wire().len(),
            Content::Naptr(rule) => rule_len(rule),
            Content::Opt(bytes) | Content::Raw(bytes) => bytes.as_slice().len(),
        }
    }

    // Appends the RDATA; when out of memory, the front is as it was.
    pub(crate) fn write(&self, out: &mut Bytes) -> Result<(), MemoryFault>
        ensures ok { OnOk result (out.new ≡ out.old ++ rdata_of self.now) }
        ensures front { take (length out.old) out.new ≡ out.old }
        ensures fits { OnOk result (IsContent self.now) }
    {
        match self {
            Content::A(address) => write_address(address, out),
            Content::Ns(name) | Content::Cname(name) | Content::Ptr(name) => {
                append(name.wire(), out)
            }
            Content::Soa(soa) => soa.write(out),
            Content::Mx(preference, exchange) => {
                append_u16(*preference, out)?;
                append(exchange.wire(), out)
            }
            Content::Txt(texts) => write_texts(texts.as_slice(), out),
            Content::Aaaa(address) => write_address(address, out),
            Content::Srv(priority, weight, port, target) => {
                append_u16(*priority, out)?;
                append_u16(*weight, out)?;
                append_u16(*port, out)?;
                append(target.wire(), out)
            }
            Content::Naptr(rule) => rule.write(out),
            Content::Opt(bytes) | Content::Raw(bytes) => append(bytes.as_slice(), out),
        }
    }

    // The kind that the content belongs to; that of bytes as they stand is not told.
    pub(crate) fn kind(&self) -> u16
        ensures { result ≡ kind_of self.now }
    {
        match self {
            Content::A(_) => kinds::A,
            Content::Ns(_) => kinds::NS,
            Content::Cname(_) => kinds::CNAME,
            Content::Soa(_) => kinds::SOA,
            Content::Ptr(_) => kinds::PTR,
            Content::Mx(_, _) => kinds::MX,
            Content::Txt(_) => kinds::TXT,
            Content::Aaaa(_) => kinds::AAAA,
            Content::Srv(_, _, _, _) => kinds::SRV,
            Content::Naptr(_) => kinds::NAPTR,
            Content::Opt(_) => kinds::OPT,
            Content::Raw(_) => 0,
        }
    }

    /// Content that is equal to this one.
    ///
    /// # Errors
    /// Out of memory.
    pub fn copy(&self, alloc: Global) -> Result<Content, MemoryFault>
        ensures { IfOk result (λ content. content ≡ self.now) }
    {
        match self {
            Content::A(address) => Ok(Content::A(*address)),
            Content::Ns(name) => Ok(Content::Ns(*name)),
            Content::Cname(name) => Ok(Content::Cname(*name)),
            Content::Soa(soa) => Ok(Content::Soa(*soa)),
            Content::Ptr(name) => Ok(Content::Ptr(*name)),
            Content::Mx(preference, exchange) => Ok(Content::Mx(*preference, *exchange)),
            Content::Txt(texts) => Ok(Content::Txt(copy_texts(alloc, texts.as_slice())?)),
            Content::Aaaa(address) => Ok(Content::Aaaa(*address)),
            Content::Srv(priority, weight, port, target) => {
                Ok(Content::Srv(*priority, *weight, *port, *target))
            }
            Content::Naptr(rule) => Ok(Content::Naptr(*rule)),
            Content::Opt(bytes) => Ok(Content::Opt(copy_bytes(alloc, bytes.as_slice())?)),
            Content::Raw(bytes) => Ok(Content::Raw(copy_bytes(alloc, bytes.as_slice())?)),
        }
    }
}

impl Soa {
    ghost use Rattle.dns_wire.specs.Rdata.{soa_rdata};
    ghost use Rattle.dns_wire.specs.Ranges.{IsSoa};

    // The length of the RDATA.
    fn rdata_len(&self) -> usize
        ensures { result ≡ length (soa_rdata self.now) }
    {
        self.mname.wire().len() + self.rname.wire().len() + 20
    }

    // Appends the RDATA; when out of memory, the front is as it was.
    fn write(&self, out: &mut Bytes) -> Result<(), MemoryFault>
        ensures ok { OnOk result (out.new ≡ out.old ++ soa_rdata self.now) }
        ensures front { take (length out.old) out.new ≡ out.old }
        ensures fits { OnOk result (IsSoa self.now) }
    {
        append(self.mname.wire(), out)?;
        append(self.rname.wire(), out)?;
        append_u32(self.serial, out)?;
        append_u32(self.refresh, out)?;
        append_u32(self.retry, out)?;
        append_u32(self.expire, out)?;
        append_u32(self.minimum, out)
    }
}

// How many bytes an address has.
fn address_len<const SIZE: usize>(address: &[u8; SIZE]) -> usize
    ensures { result ≡ length address.now }
{
    address.len()
}

// The length of the RDATA of a rule: two numbers, three texts with a length byte each, and a name.
fn rule_len(rule: &Naptr) -> usize
    ensures { result ≡ length (rdata rule.now) }
{
    let texts = rule.flags.as_bytes().len()
        + rule.services.as_bytes().len()
        + rule.regexp.as_bytes().len();
    7 + texts + rule.replacement.wire().len()
}

// The length of the texts as character-strings, or the greatest number where that is less.
fn texts_len(texts: &[Text255]) -> usize
    ensures { result ≡ min (length (flat_map string_wire texts.now)) (2 ^ 64 - 1) }
{
    let mut size: usize = 0;
    for text in texts {
        size = size.saturating_add(text.as_bytes().len() + 1);
    }
    size
}

// Appends the address.
fn write_address<const SIZE: usize>(
    address: &[u8; SIZE],
    out: &mut Bytes,
) -> Result<(), MemoryFault>
    ensures ok { OnOk result (out.new ≡ out.old ++ address.now) }
    ensures front { take (length out.old) out.new ≡ out.old }
    ensures size { length address.now ≡ SIZE }
    ensures fits { AreBytes address.now }
{
    append(address, out)
}

// Appends the texts as character-strings; when out of memory, the front is as it was.
fn write_texts(texts: &[Text255], out: &mut Bytes) -> Result<(), MemoryFault>
    ensures ok { OnOk result (out.new ≡ out.old ++ flat_map string_wire texts.now) }
    ensures front { take (length out.old) out.new ≡ out.old }
    ensures fits { OnOk result (AllByRecursion IsText texts.now) }
{
    for text in texts {
        write_text(text, out)?;
    }
    Ok(())
}

// Appends the text as a character-string; when out of memory, the front is as it was.
fn write_text(text: &Text255, out: &mut Bytes) -> Result<(), MemoryFault>
    ensures ok { OnOk result (out.new ≡ out.old ++ string_wire text.now) }
    ensures front { take (length out.old) out.new ≡ out.old }
    ensures fits { OnOk result (IsText text.now) }
{
    let bytes = text.as_bytes();
    append(&[bytes.len() as u8], out)?;
    append(bytes, out)
}

fn copy_texts(alloc: Global, texts: &[Text255]) -> Result<Texts, MemoryFault>
    ensures { IfOk result (λ copies. copies ≡ texts.now) }
{
    let mut copies = Texts::new(alloc);
    for text in texts {
        copies.push(*text)?;
    }
    Ok(copies)
}

pub(crate) fn copy_bytes(alloc: Global, bytes: &[u8]) -> Result<Bytes, MemoryFault>
    ensures { IfOk result (λ copy. copy ≡ bytes.now) }
{
    let mut copy = Bytes::new(alloc);
    copy.push_slice(bytes)?;
    Ok(copy)
}

//! The head of a query and of a reply (RFC 1035, 4.1.1).
ghost use Rattle.std.specs.Prelude.{◌≡◌, ◌+◌, ◌<◌, ◌≤◌, ◌↔◌, IsTrue, length};
ghost use Rattle.zone_db.specs.Bits.{IsSilent, header_of, opcode_of, qr_of, rd_of, u16_at};
ghost use Rattle.zone_db.specs.Replies.{reply_header};

use dns_wire::Header;

// The bits of a header, and the unit of the opcode, which has four.
const QR: u16 = 0x8000;

const OPCODE: u16 = 0x0800;

const AA: u16 = 0x0400;

const TC: u16 = 0x0200;

const RD: u16 = 0x0100;

/// Whether nothing is said to the query. Takes no memory.
pub(crate) fn is_silent(query: &[u8]) -> bool
    ensures { IsTrue result ↔ IsSilent query.now }
{
    if query.len() < 12 {
        return true;
    }
    is_reply(&header_of(query))
}

// Whether QR is set.
fn is_reply(header: &Header) -> bool
    ensures { IsTrue result ↔ (qr_of header.now.bits ≡ 1) }
{
    let bits = header.bits;
    bits / QR % 2 == 1
}

/// The number and the bits of a query.
pub(crate) fn header_of(query: &[u8]) -> Header
    requires { 12 ≤ length query.now }
    ensures { result ≡ header_of query.now }
{
    Header {
        id: u16_at(query, 0),
        bits: u16_at(query, 2),
    }
}

fn u16_at(query: &[u8], at: usize) -> u16
    requires { at + 1 < length query.now }
    ensures { result ≡ u16_at query.now at }
{
    256 * u16::from(query[at]) + u16::from(query[at + 1])
}

/// The opcode.
pub(crate) fn opcode_of(bits: u16) -> u16
    ensures { result ≡ opcode_of bits }
{
    bits / OPCODE % 16
}

fn rd_of(bits: u16) -> u16
    ensures { result ≡ rd_of bits }
{
    bits / RD % 2
}

/// The header of a reply.
pub(crate) fn reply_header(query: &Header, authoritative: bool, short: bool, code: u8) -> Header
    ensures { result ≡ reply_header query.now authoritative short code }
{
    let mut bits = QR + OPCODE * opcode_of(query.bits) + RD * rd_of(query.bits);
    if authoritative {
        bits += AA;
    }
    if short {
        bits += TC;
    }
    Header {
        id: query.id,
        bits: bits + u16::from(code % 16),
    }
}

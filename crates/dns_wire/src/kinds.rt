//! The types of records, by number and by name, and the class of the internet. All that is written of types elsewhere is written
//! with these.
ghost use Rattle.std.specs.Prelude.{◌≡◌, Some, None, MatchOption};
ghost use Rattle.dns_wire.specs.Kinds.{kind_word};

/// The class of the internet (RFC 1035, 3.2.4).
pub const INTERNET: u16 = 1;

/// An IPv4 address (RFC 1035, 3.4.1).
pub const A: u16 = 1;
/// A server of a zone (RFC 1035, 3.3.11).
pub const NS: u16 = 2;
/// The name that an alias stands for (RFC 1035, 3.3.1).
pub const CNAME: u16 = 5;
/// The start of a zone (RFC 1035, 3.3.13).
pub const SOA: u16 = 6;
/// Another name (RFC 1035, 3.3.12).
pub const PTR: u16 = 12;
/// A mail exchange (RFC 1035, 3.3.9).
pub const MX: u16 = 15;
/// Texts (RFC 1035, 3.3.14).
pub const TXT: u16 = 16;
/// An IPv6 address (RFC 3596, 2.1).
pub const AAAA: u16 = 28;
/// A server of a service (RFC 2782).
pub const SRV: u16 = 33;
/// A rule (RFC 3403, 4.1).
pub const NAPTR: u16 = 35;
/// Options of a message (RFC 6891, 6.1.1).
pub const OPT: u16 = 41;
/// All types, in questions alone (RFC 1035, 3.2.3).
pub const ANY: u16 = 255;

/// The name of a type that a record is read by, or of options. No memory.
pub fn kind_word(kind: u16) -> Option<&'static [u8]>
    ensures { MatchOption result (kind_word kind ≡ None) (λ word. kind_word kind ≡ Some word.now) }
{
    match kind {
        A => Some(b"A"),
        NS => Some(b"NS"),
        CNAME => Some(b"CNAME"),
        SOA => Some(b"SOA"),
        PTR => Some(b"PTR"),
        MX => Some(b"MX"),
        TXT => Some(b"TXT"),
        AAAA => Some(b"AAAA"),
        SRV => Some(b"SRV"),
        NAPTR => Some(b"NAPTR"),
        OPT => Some(b"OPT"),
        _ => None,
    }
}

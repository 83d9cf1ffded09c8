//! What a message holds at most.

/// The greatest length of a message in bytes, which its length on a stream tells (RFC 1035, 4.2.2).
pub const MOST_BYTES: usize = 65_535;

/// How many questions, or records of a section, a message has at most (RFC 1035, 4.1.1).
pub const MOST_ITEMS: usize = 65_535;

/// The greatest length of RDATA in bytes (RFC 1035, 3.2.1).
pub const MOST_RDATA: usize = 65_535;

/// The length of a header in bytes (RFC 1035, 4.1.1).
pub(crate) const HEADER: usize = 12;

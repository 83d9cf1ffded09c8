//! Messages.
ghost use Rattle.std.specs.Prelude.{IsTrue};
ghost use Rattle.dns_wire.specs.Counts.{are_counted};

use crate::question::Questions;
use crate::record::Records;

/// What a message's header says beside its counts (RFC 1035, 4.1.1): its number, and sixteen bits.
#[derive(Clone, Copy, Debug, PartialEq, Eq)]
pub struct Header {
    pub id: u16,
    /// QR is 0x8000, the opcode 0x7800, AA 0x0400, TC 0x0200, RD 0x0100, RA 0x0080 and RCODE 0x000F.
    pub bits: u16,
}

/// The counts of a header (RFC 1035, 4.1.1): how many questions and records of each section follow.
#[derive(Clone, Copy)]
pub(crate) struct Counts {
    pub questions: u16,
    pub answers: u16,
    pub authority: u16,
    pub additional: u16,
}

/// A message (RFC 1035, 4.1). Each of its lists has at most 65,535 items.
#[derive(Drop)]
pub struct Message {
    pub header: Header,
    pub questions: Questions,
    pub answers: Records,
    pub authority: Records,
    pub additional: Records,
    ghost counted: { IsTrue (are_counted questions answers authority additional) },
}

//! Messages on a stream.
ghost use Rattle.std.specs.Prelude.{◌≡◌, ◌+◌, ◌≤◌, [], ◌++◌, length, drop, take, slice_range, OnOk, OnErr, IsNone, IfNone, IfSome, MatchOption, ◌↔◌};
ghost use Rattle.std.specs.List.{AllByRecursion};
ghost use Rattle.dns_wire.specs.Framing.{FitsFrame, IsNoWhole, BeginsWith};

use byteorder::{BigEndian, ByteOrder};
use enum_base::{Bytes, MemoryFault};
use std::alloc::Global;
use std::marker::Model;
use std::ops::Range;

/// Cuts a stream that comes in pieces into its messages: each is two bytes that tell its length, the
/// high byte first, and then so many bytes (RFC 1035, 4.2.2). All bytes of the stream stay held.
/// Contracts see the messages that were given and the bytes after them.
#[derive(Drop)]
pub struct Framer {
    stream: Bytes,
    // Where the bytes begin that are no part of a given message.
    place: usize,
}

impl Model for Framer {
    ghost use Rattle.dns_wire.specs.Framing.{Stream};

    ghost Value = { Stream };

    ghost use Rattle.dns_wire.specs.Frames.{cut_at, IsFrontWhole};

    ghost view = { λ f. cut_at f.stream f.place };

    ghost invariant = { λ f. IsFrontWhole f.stream f.place };
}

impl Framer {
    ghost use Rattle.dns_wire.specs.Framing.{framed_all, stream_bytes, GivesMessage};

    /// A stream of no bytes so far, which takes no memory.
    pub fn new(alloc: Global) -> Framer
        ensures { result ≡ record { given = []; rest = [] } }
    {
        Framer {
            stream: Bytes::new(alloc),
            place: 0,
        }
    }

    /// Appends a piece to the stream.
    ///
    /// # Errors
    /// Out of memory; the stream is then as it was.
    pub fn feed(&mut self, piece: &[u8]) -> Result<(), MemoryFault>
        ensures ok { OnOk result (self.new ≡ record self.old { rest = self.old.rest ++ piece.now }) }
        ensures err { OnErr result (self.new ≡ self.old) }
    {
        self.stream.push_slice(piece)
    }

    /// The place of the next whole message in `held`, if one is there. Takes no memory.
    pub fn next(&mut self) -> Option<Range<usize>>
        ensures message { IfSome result (λ range. GivesMessage self.old self.new (slice_range (stream_bytes self.new) range.start range.end)) }
        ensures place { IfSome result (λ range. range.start ≡ length (framed_all self.old.given) + 2) }
        ensures within { IfSome result (λ range. (range.start ≤ range.end) × (range.end ≤ length (stream_bytes self.new))) }
        ensures none { IsNone result ↔ IsNoWhole self.old.rest }
        ensures unchanged { IfNone result (self.new ≡ self.old) }
    {
        let size = front_size(&self.stream.as_slice()[self.place..])?;
        let start = self.place + 2;
        self.place = start + size;
        Some(start..self.place)
    }

    /// The stream so far. Takes no memory.
    pub fn held(&self) -> &[u8]
        ensures stream { result.now ≡ stream_bytes self.now }
        ensures fit { AllByRecursion FitsFrame self.now.given }
    {
        self.stream.as_slice()
    }
}

// The length of the whole message at the front of some bytes, if one is there.
fn front_size(bytes: &[u8]) -> Option<usize>
    ensures front { MatchOption result (IsNoWhole bytes.now) (λ size. BeginsWith bytes.now (take size (drop 2 bytes.now)) (drop size (drop 2 bytes.now))) }
    ensures within { IfSome result (λ size. 2 + size ≤ length bytes.now) }
{
    if bytes.len() < 2 {
        return None;
    }
    let size = usize::from(BigEndian::read_u16(bytes));
    if size <= bytes.len() - 2 {
        Some(size)
    } else {
        None
    }
}

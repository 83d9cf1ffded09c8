//! The bytes of a message, for what reads names in it.
ghost use Rattle.std.specs.Prelude.{◌≡◌, ◌+◌, ◌≤◌, length, IfOk};
ghost use Rattle.std.specs.Int.{w16, w32, to_be_bytes};
ghost use Rattle.dns_name.specs.Targets.{AreTargets};
ghost use Rattle.dns_name.specs.Wire.{StandsAt};

use crate::targets::{Targets, targets_of};
use enum_base::MemoryFault;
use std::alloc::Global;
use std::marker::Model;

/// The bytes of a message, and where the chains of pointers in it lead to, if that is known: names are then read with no chain of
/// pointers followed twice (RFC 1035, 4.1.4).
#[derive(Drop)]
pub struct MessageBytes<'m> {
    pub(crate) bytes: &'m [u8],
    pub(crate) targets: Option<Targets>,
}

impl<'m> Model for MessageBytes<'m> {
    ghost use Rattle.std.specs.Prelude.{ℕ, List, IfSome};
    ghost use Rattle.dns_name.specs.Targets.{AreTargets};

    ghost Value = { List ℕ };

    ghost view = { λ m. m.bytes.now };

    ghost invariant = { λ m. IfSome m.targets (AreTargets m.bytes.now) };
}

impl<'m> MessageBytes<'m> {
    /// These bytes, of whose pointers nothing is known. No memory.
    pub fn new(bytes: &'m [u8]) -> MessageBytes<'m>
        ensures { result ≡ bytes.now }
    {
        MessageBytes {
            bytes,
            targets: None,
        }
    }

    /// These bytes, and where all the chains of pointers in them lead to, by one pass.
    ///
    /// # Errors
    /// Out of memory.
    pub fn with_targets(alloc: Global, bytes: &'m [u8]) -> Result<MessageBytes<'m>, MemoryFault>
        ensures { IfOk result (λ message. message ≡ bytes.now) }
    {
        let targets = targets_of(alloc, bytes)?;
        Ok(MessageBytes {
            bytes,
            targets: Some(targets),
        })
    }

    /// The bytes.
    pub fn as_slice(&self) -> &'m [u8]
        ensures { result.now ≡ self.now }
    {
        self.bytes
    }

    /// How many bytes there are.
    pub fn len(&self) -> usize
        ensures { result ≡ length self.now }
    {
        self.bytes.len()
    }

    /// The number of 16 bits at that place, the high byte first (RFC 1035, 2.3.2).
    pub fn u16_at(&self, at: usize) -> u16
        requires { at + 2 ≤ length self.now }
        ensures { StandsAt self.now at (to_be_bytes w16 result) }
    {
        u16_of(self.bytes, at)
    }

    /// The number of 32 bits at that place, the high byte first (RFC 1035, 2.3.2).
    pub fn u32_at(&self, at: usize) -> u32
        requires { at + 4 ≤ length self.now }
        ensures { StandsAt self.now at (to_be_bytes w32 result) }
    {
        u32_of(self.bytes, at)
    }

    // The targets that are known.
    pub(crate) fn targets(&self) -> &[u16]
        ensures { AreTargets self.now result.now }
    {
        match &self.targets {
            Some(targets) => targets.as_slice(),
            None => &[],
        }
    }
}

// The number of two bytes.
fn u16_of(bytes: &[u8], at: usize) -> u16
    requires { at + 2 ≤ length bytes.now }
    ensures { StandsAt bytes.now at (to_be_bytes w16 result) }
{
    u16::from_be_bytes([bytes[at], bytes[at + 1]])
}

// The number of four bytes.
fn u32_of(bytes: &[u8], at: usize) -> u32
    requires { at + 4 ≤ length bytes.now }
    ensures { StandsAt bytes.now at (to_be_bytes w32 result) }
{
    u32::from_be_bytes([bytes[at], bytes[at + 1], bytes[at + 2], bytes[at + 3]])
}

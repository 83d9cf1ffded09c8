//! Lists of bytes.
ghost use Rattle.std.specs.Prelude.{◌≡◌, [], ◌++◌, take, OnOk, OnErr};

use crate::MemoryFault;
use std::alloc::{Allocator, Global};
use std::marker::Model;

/// A list of bytes, in any allocator.
#[derive(Drop)]
pub struct Bytes<A: Allocator = Global> {
    items: Vec<u8, A>,
}

impl<A: Allocator> Model for Bytes<A> {
    ghost use Rattle.std.specs.Prelude.{List, ℕ};

    ghost Value = { List ℕ };

    ghost view = { λ b. b.items.items };
}

impl<A: Allocator> Bytes<A> {
    /// The empty list, which takes no memory.
    pub fn new(alloc: A) -> Self
        ensures { result ≡ [] }
    {
        Bytes {
            items: Vec::new(alloc),
        }
    }

    /// The bytes.
    pub fn as_slice(&self) -> &[u8]
        ensures { result.now ≡ self.now }
    {
        self.items.as_slice()
    }

    /// Appends the bytes.
    pub fn push_slice(&mut self, bytes: &[u8]) -> Result<(), MemoryFault>
        ensures ok { OnOk result (self.new ≡ self.old ++ bytes.now) }
        ensures err { OnErr result (self.new ≡ self.old) }
    {
        self.items.extend_from_slice(bytes)?;
        Ok(())
    }

    /// Appends both, or neither.
    pub fn push_both(&mut self, first: &[u8], second: &[u8]) -> Result<(), MemoryFault>
        ensures ok { OnOk result (self.new ≡ self.old ++ (first.now ++ second.now)) }
        ensures err { OnErr result (self.new ≡ self.old) }
    {
        let held = self.items.len();
        self.push_slice(first)?;
        let pushed = self.push_slice(second);
        if pushed.is_err() {
            self.truncate(held);
        }
        pushed
    }

    /// Keeps the first `len` bytes; where there are no more than these, nothing changes.
    pub fn truncate(&mut self, len: usize)
        ensures { self.new ≡ take len self.old }
    {
        self.items.truncate(len);
    }
}

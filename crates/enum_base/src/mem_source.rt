//! A source in memory.
ghost use Rattle.std.specs.Prelude.{◌≡◌, ◌<◌, ◌≤◌, take, length, Some, None, IfOk};
ghost use Rattle.enum_base.specs.Causes.{HasCause};
ghost use Rattle.enum_base.specs.Memory.{ReadsListed};
ghost use Rattle.enum_base.specs.Outside.{AreFirst, EndsAtEnd, after};

use crate::calls::{Calls, copy_front};
use crate::{Bytes, Failed, Ranks, Source};
use std::alloc::Global;
use std::marker::Model;

/// A source in memory, which fails at listed calls. Calls of `read` are counted from 1.
#[derive(Drop)]
pub struct MemSource {
    bytes: Bytes,
    // how much was read
    at: usize,
    calls: Calls,
}

impl Model for MemSource {
    ghost use Rattle.std.specs.Prelude.{◌≤◌, drop, length};
    ghost use Rattle.enum_base.specs.Memory.{MemorySource};

    ghost Value = { MemorySource };

    ghost view = { λ s. record {
      left = drop s.at s.bytes;
      failing = s.calls.failing;
      calls = s.calls.made;
      faults = s.calls.faults;
    } };

    ghost invariant = { λ s. s.at ≤ length s.bytes };
}

impl MemSource {
    /// A source of these bytes, which takes no memory. Each call whose number `failing` has will fail.
    pub fn new(_alloc: Global, bytes: Bytes, failing: Ranks) -> Self
        ensures { result ≡ record { left = bytes; failing = failing; calls = 0; faults = 0 } }
    {
        MemSource {
            bytes,
            at: 0,
            calls: Calls::new(failing),
        }
    }
}

impl Source for MemSource {
    ghost state = { λ s. record { left = Some s.left; faults = s.faults } };

    fn read(&mut self, buf: &mut [u8]) -> Result<usize, Failed>
        ensures bound { IfOk result (λ n. n ≤ length buf.new) }
        ensures given { IfOk result (λ n. AreFirst n (take n buf.new) (Some self.old.left)) }
        ensures left { IfOk result (λ n. Some self.new.left ≡ after n (Some self.old.left)) }
        ensures untold { Some self.old.left ≡ None → Some self.new.left ≡ None }
        ensures ends { IfOk result (λ n. 0 < length buf.new → EndsAtEnd n (Some self.old.left)) }
        ensures cause { HasCause self.old.faults self.new.faults result }
        ensures reads { ReadsListed self.old.failing self.old.calls self.new.calls self.old.faults self.new.faults
            self.old.left self.new.left (length buf.new) result }
        ensures failing { self.new.failing ≡ self.old.failing }
    {
        self.calls.begin()?;
        let count = copy_front(&self.bytes.as_slice()[self.at..], buf);
        self.at += count;
        Ok(count)
    }
}

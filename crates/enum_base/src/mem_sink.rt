//! A sink in memory.
ghost use Rattle.std.specs.Prelude.{◌≡◌, ◌⊎◌, ◌<◌, ◌≤◌, min, [], take, length, Contains, Some, IsErr, IfOk, OnErr, OnOk};
ghost use Rattle.enum_base.specs.Causes.{HasCause, one_more};
ghost use Rattle.enum_base.specs.Outside.{with_more};

use crate::calls::{Calls, one_more};
use crate::{Bytes, Failed, Ranks, Sink};
use std::alloc::Global;
use std::marker::Model;

/// A sink in memory, which takes so many bytes at a time and fails at listed calls. Calls of `write`
/// are counted from 1.
#[derive(Drop)]
pub struct MemSink {
    held: Bytes,
    most: usize,
    calls: Calls,
    short: u64,
}

impl Model for MemSink {
    ghost use Rattle.std.specs.Prelude.{◌<◌};
    ghost use Rattle.enum_base.specs.Memory.{MemorySink};

    ghost Value = { MemorySink };

    ghost view = { λ s. record {
      held = s.held;
      most = s.most;
      failing = s.calls.failing;
      calls = s.calls.made;
      faults = s.calls.faults;
      short = s.short;
    } };

    ghost invariant = { λ s. 0 < s.most };
}

impl MemSink {
    /// An empty sink, which takes no memory and takes at most `most` bytes in one write. Each call
    /// whose number `failing` has will fail.
    pub fn new(alloc: Global, most: usize, failing: Ranks) -> Self
        requires { 1 ≤ most }
        ensures { result ≡ record { held = []; most = most; failing = failing; calls = 0; faults = 0; short = 0 } }
    {
        MemSink {
            held: Bytes::new(alloc),
            most,
            calls: Calls::new(failing),
            short: 0,
        }
    }

    /// The bytes held.
    pub fn held(&self) -> &[u8]
        ensures { result.now ≡ self.now.held }
    {
        self.held.as_slice()
    }
}

impl Sink for MemSink {
    ghost state = { λ s. record { held = Some s.held; faults = s.faults } };

    fn write(&mut self, bytes: &[u8]) -> Result<usize, Failed>
        ensures bound { IfOk result (λ n. n ≤ length bytes.now) }
        ensures some { IfOk result (λ n. 0 < length bytes.now → 0 < n) }
        ensures appended { IfOk result (λ n. Some self.new.held ≡ with_more (Some self.old.held) (take n bytes.now)) }
        ensures kept { OnErr result (Some self.new.held ≡ Some self.old.held) }
        ensures cause { HasCause self.old.faults self.new.faults result }
        // It fails at the listed calls, and else only out of memory, which raises `short`.
        ensures listed { Contains self.old.failing (one_more self.old.calls) → IsErr result × (self.new.short ≡ self.old.short) }
        ensures short { OnErr result (Contains self.old.failing (one_more self.old.calls) ⊎ (self.new.short ≡ one_more self.old.short)) }
        ensures ample { OnOk result (self.new.short ≡ self.old.short) }
        ensures counted { self.new.calls ≡ one_more self.old.calls }
        ensures failing { self.new.failing ≡ self.old.failing }
        ensures most { self.new.most ≡ self.old.most }
        ensures raised { OnErr result (self.new.faults ≡ one_more self.old.faults) }
        ensures amount { IfOk result (λ n. n ≡ min self.old.most (length bytes.now)) }
    {
        self.calls.begin()?;
        let count = self.most.min(bytes.len());
        match self.held.push_slice(&bytes[..count]) {
            Ok(()) => Ok(count),
            Err(_) => {
                self.short = one_more(self.short);
                Err(self.calls.fault())
            }
        }
    }
}

//! Counts of calls and copies of bytes, for the objects in memory.
ghost use Rattle.std.specs.Prelude.{◌≡◌, ◌↔◌, Contains, IsErr, IsTrue, OnErr, ◌≤◌, min, take, length};
ghost use Rattle.enum_base.specs.Causes.{HasCause, one_more};

use crate::{Failed, Ranks};

/// The calls of an object in memory, counted from 1, and which of them fail.
#[derive(Drop)]
pub(crate) struct Calls {
    pub(crate) failing: Ranks,
    pub(crate) made: u64,
    pub(crate) faults: u64,
}

impl Calls {
    pub(crate) fn new(failing: Ranks) -> Self
        ensures failing { result.failing ≡ failing }
        ensures made { result.made ≡ 0 }
        ensures faults { result.faults ≡ 0 }
    {
        Calls {
            failing,
            made: 0,
            faults: 0,
        }
    }

    /// Counts a call, which fails exactly where its number is listed.
    pub(crate) fn begin(&mut self) -> Result<(), Failed>
        ensures listed { IsErr result ↔ Contains self.old.failing (one_more self.old.made) }
        ensures made { self.new.made ≡ one_more self.old.made }
        ensures failing { self.new.failing ≡ self.old.failing }
        ensures raised { OnErr result (self.new.faults ≡ one_more self.old.faults) }
        ensures cause { HasCause self.old.faults self.new.faults result }
    {
        self.made = one_more(self.made);
        if is_listed(&self.failing, self.made) {
            return Err(self.fault());
        }
        Ok(())
    }

    /// Counts a fault.
    pub(crate) fn fault(&mut self) -> Failed
        ensures raised { self.new.faults ≡ one_more self.old.faults }
        ensures later { self.old.faults ≤ self.new.faults }
        ensures made { self.new.made ≡ self.old.made }
        ensures failing { self.new.failing ≡ self.old.failing }
    {
        self.faults = one_more(self.faults);
        Failed
    }
}

/// One more, in a count that stays at its greatest value.
pub(crate) fn one_more(count: u64) -> u64
    ensures { result ≡ one_more count }
{
    count.saturating_add(1)
}

// Whether that call is to fail.
fn is_listed(failing: &Ranks, call: u64) -> bool
    ensures { IsTrue result ↔ Contains failing.now call }
{
    failing
        .as_slice()
        .iter()
        .any(|rank| u64::from(*rank) == call)
}

/// Copies as many bytes as there are and have room, and says how many.
pub(crate) fn copy_front(from: &[u8], to: &mut [u8]) -> usize
    ensures count { result ≡ min (length to.new) (length from.now) }
    ensures copied { take result to.new ≡ take result from.now }
{
    let count = to.len().min(from.len());
    to[..count].copy_from_slice(&from[..count]);
    count
}

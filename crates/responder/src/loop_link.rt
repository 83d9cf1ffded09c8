//! A link to zones in memory.
ghost use Rattle.std.specs.Prelude.{◌≡◌, ◌≤◌, ◌↔◌, [], length, Contains, IsErr, IsTrue, OnOk, OnErr};
ghost use Rattle.enum_base.specs.Causes.{HasCause, one_more};
ghost use Rattle.zone_db.specs.Links.{Exchanges, IsAimed, TellsSet};
ghost use Rattle.responder.specs.Loops.{FailsListed, Replies, link_state};

use crate::reply::{Answered, answer};
use enum_base::{Bytes, Failed, Ranks};
use std::alloc::Global;
use std::marker::Model;
use zone_db::{Counts, Exchanged, Link, Way, ZoneSet};

/// A link to zones in memory, which fails at listed calls. Exchanges are counted from 1, and `aim` is call 0.
#[derive(Drop)]
pub struct LoopLink {
    zones: ZoneSet,
    failing: Ranks,
    exchanged: Exchanged,
    held: Bytes,
    faults: u64,
    // how many exchanges failed out of memory
    short: u64,
    alloc: Global,
}

impl Model for LoopLink {
    ghost use Rattle.responder.specs.Loops.{MemoryLink};

    ghost Value = { MemoryLink };

    ghost view = { λ l. record {
      zones = l.zones;
      failing = l.failing;
      kept = l.exchanged;
      held = l.held;
      faults = l.faults;
      short = l.short;
    } };
}

impl LoopLink {
    /// A link to these zones, which takes no memory. Each call whose number `failing` has will fail.
    pub fn new(alloc: Global, zones: ZoneSet, failing: Ranks) -> LoopLink
        ensures { result ≡ record {
          zones = zones;
          failing = failing;
          kept = record { exchanges = 0; way = Way.Datagram; query = []; recent = 0 };
          held = [];
          faults = 0;
          short = 0;
        } }
    {
        LoopLink {
            zones,
            failing,
            exchanged: Exchanged::none(),
            held: Bytes::new(alloc),
            faults: 0,
            short: 0,
            alloc,
        }
    }

    // Holds the reply to the query of the exchange that was begun.
    fn reply(&mut self, way: Way, query: &[u8]) -> Result<(), Failed>
        ensures { Replies self.old self.new way query.now result }
    {
        if is_listed(&self.failing, self.exchanged.count()) {
            return Err(self.fault());
        }
        let mut reply = Bytes::new(self.alloc);
        match answer(self.alloc, &self.zones, query, way, &mut reply) {
            Ok(Answered::Reply) => {
                self.held = reply;
                Ok(())
            }
            Ok(Answered::Silent) => Err(self.fault()),
            Err(_) => {
                self.short = self.short.saturating_add(1);
                Err(self.fault())
            }
        }
    }

    // Counts a fault.
    fn fault(&mut self) -> Failed
        ensures raised { self.new ≡ record self.old { faults = one_more self.old.faults } }
        ensures later { self.old.faults ≤ self.new.faults }
    {
        self.faults = self.faults.saturating_add(1);
        Failed
    }
}

impl Link for LoopLink {
    ghost use Rattle.std.specs.Prelude.{Some};

    ghost state = { λ l. record {
      zones = Some l.zones;
      exchanges = l.kept.exchanges;
      way = l.kept.way;
      query = l.kept.query;
      recent = l.kept.recent;
      held = l.held;
      faults = l.faults;
    } };

    fn aim(&mut self, _address: &str) -> Result<(), Failed>
        ensures aimed { self.new ≡ record self.old { faults = self.new.faults } }
        ensures cause { HasCause self.old.faults self.new.faults result }
        ensures listed { IsErr result ↔ Contains self.old.failing 0 }
    {
        if is_listed(&self.failing, 0) {
            return Err(self.fault());
        }
        Ok(())
    }

    fn exchange(&mut self, way: Way, query: &[u8]) -> Result<(), Failed>
        requires { length query.now ≤ 512 }
        ensures exchanged { Exchanges (link_state self.old) (link_state self.new) way query.now result }
        ensures cause { HasCause self.old.faults self.new.faults result }
        ensures listed { FailsListed self.old self.new way query.now result }
    {
        self.exchanged.begin(way, query);
        let done = self.reply(way, query);
        self.exchanged.end(&done);
        done
    }

    fn counts(&self) -> Counts {
        let _zones = self.zones.zones();
        Counts {
            exchanges: self.exchanged.count(),
            faults: self.faults,
        }
    }

    fn held(&self) -> &[u8] {
        self.held.as_slice()
    }
}

// Whether that call is to fail.
fn is_listed(failing: &Ranks, call: u64) -> bool
    ensures { IsTrue result ↔ Contains failing.now call }
{
    failing
        .as_slice()
        .iter()
        .any(|rank| u64::from(*rank) == call)
}

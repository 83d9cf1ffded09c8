//! A link whose replies stand in a case.
ghost use Rattle.std.specs.Prelude.{◌≡◌, ◌≤◌, length};
ghost use Rattle.enum_base.specs.Causes.{HasCause, one_more};

use cases_text::digits_of;
use enum_base::{Failed, MemoryFault};
use std::alloc::Global;
use std::marker::Model;
use zone_db::{Counts, Exchanged, Link, Way};

/// A link whose exchanges come to the steps of a case, one after another. It tells no zones.
#[derive(Drop)]
pub struct ScriptedLink {
    alloc: Global,
    // The steps, with a blank between.
    steps: String,
    at: usize,
    // The way and the number of each query.
    queries: String,
    exchanged: Exchanged,
    held: Vec<u8>,
    faults: u64,
}

impl Model for ScriptedLink {
    ghost use Rattle.cases_wire.specs.Scripted.{Scripted};

    ghost Value = { Scripted };

    ghost view = { λ l. record { kept = l.exchanged; held = l.held.items; faults = l.faults } };
}

impl ScriptedLink {
    pub fn new(alloc: Global, steps: &str) -> Result<ScriptedLink, MemoryFault> {
        Ok(ScriptedLink {
            alloc,
            steps: String::from_str(alloc, steps)?,
            at: 0,
            queries: String::new(alloc),
            exchanged: Exchanged::none(),
            held: Vec::new(alloc),
            faults: 0,
        })
    }

    /// The way and the number of each query.
    pub fn queries(&self) -> &str {
        self.queries.as_str()
    }

    // Counts a fault.
    fn fault(&mut self) -> Failed
        ensures raised { self.new ≡ record self.old { faults = one_more self.old.faults } }
        ensures later { self.old.faults ≤ self.new.faults }
    {
        self.faults = self.faults.saturating_add(1);
        Failed
    }

    // Holds the reply of the next step; false where it has none.
    fn reply(&mut self, way: Way, query: &[u8]) -> Result<bool, MemoryFault>
        ensures { self.new ≡ record self.old { held = self.new.held } }
    {
        let number = match query {
            [high, low, ..] => 256 * u32::from(*high) + u32::from(*low),
            _ => 0,
        };
        let word = if way == Way::Stream {
            "stream"
        } else {
            "datagram"
        };
        self.queries
            .push_str(format!(in self.alloc; "; {word} {number}")?.as_str())?;
        let reply = match self.steps.split(' ').nth(self.at) {
            Some("-") | None => None,
            Some(digits) => Some(digits_of(self.alloc, digits)?),
        };
        self.at = self.at.saturating_add(1);
        match reply {
            Some(reply) => {
                self.held = reply;
                Ok(true)
            }
            None => Ok(false),
        }
    }
}

impl Link for ScriptedLink {
    ghost use Rattle.std.specs.Prelude.{None};

    ghost state = { λ l. record {
      zones = None;
      exchanges = l.kept.exchanges;
      way = l.kept.way;
      query = l.kept.query;
      recent = l.kept.recent;
      held = l.held;
      faults = l.faults;
    } };

    fn aim(&mut self, _address: &str) -> Result<(), Failed> {
        Ok(())
    }

    fn exchange(&mut self, way: Way, query: &[u8]) -> Result<(), Failed> {
        self.exchanged.begin(way, query);
        let done = match self.reply(way, query) {
            Ok(true) => Ok(()),
            _ => Err(self.fault()),
        };
        self.exchanged.end(&done);
        done
    }

    fn counts(&self) -> Counts {
        Counts {
            exchanges: self.exchanged.count(),
            faults: self.faults,
        }
    }

    fn held(&self) -> &[u8] {
        self.held.as_slice()
    }
}

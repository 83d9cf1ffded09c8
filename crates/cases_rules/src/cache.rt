//! The names that a source keeps, and how many it fetched.
ghost use Rattle.std.specs.Prelude.{◌≡◌, ◌≤◌, [], List, take};
ghost use Rattle.dns_name.specs.Name.{folded_labels};
ghost use Rattle.naptr_data.specs.Sources.{BringsToFront, Fetches, AreKept};
ghost use Rattle.naptr_data.specs.Zones.{Labels};

use crate::kept::{Kept, before, has, without};
use dns_name::Name;
use std::marker::Model;

#[derive(Drop)]
pub struct Cache {
    kept: Kept,
    fetched: u64,
}

impl Model for Cache {
    ghost use Rattle.naptr_data.specs.Sources.{AreKept};
    ghost use Rattle.cases_rules.specs.Names.{names_of};
    ghost use Rattle.cases_rules.specs.State.{Cached};

    ghost Value = { Cached };

    ghost view = { λ c. record { names = names_of c.kept; fetched = c.fetched } };

    ghost invariant = { λ c. AreKept (names_of c.kept) c.fetched };
}

impl Cache {
    pub fn new() -> Cache
        ensures { result ≡ record { names = []; fetched = 0 } }
    {
        Cache {
            kept: Kept::Nothing,
            fetched: 0,
        }
    }

    pub fn names(&self) -> Kept {
        self.kept
    }

    pub fn fetched(&self) -> u64 {
        self.fetched
    }

    // Counts a fetch, unless the name is kept.
    pub fn count(&mut self, name: &Name)
        ensures names { self.new.names ≡ self.old.names }
        ensures fetched { Fetches (folded_labels name.now) self.old.names self.old.fetched self.new.fetched }
        ensures before { AreKept self.old.names self.old.fetched }
        ensures after { AreKept self.new.names self.new.fetched }
    {
        self.fetched = fetched_after(self.kept, self.fetched, name.fold());
    }

    // Counts a fetch, unless the name is kept, and keeps it.
    pub fn keep(&mut self, name: &Name)
        ensures names { (all : List Labels) × BringsToFront (folded_labels name.now) self.old.names all
            × (self.new.names ≡ take 2 all) }
        ensures fetched { Fetches (folded_labels name.now) self.old.names self.old.fetched self.new.fetched }
        ensures before { AreKept self.old.names self.old.fetched }
        ensures after { AreKept self.new.names self.new.fetched }
    {
        let folded = name.fold();
        self.fetched = fetched_after(self.kept, self.fetched, folded);
        self.kept = before(folded, without(self.kept, folded));
    }
}

ghost use Rattle.cases_rules.specs.Names.{names_of};

// How many names were fetched after an ask for this one.
fn fetched_after(kept: Kept, fetched: u64, name: Name) -> u64
    ensures fetched { Fetches name (names_of kept) fetched result }
    ensures later { fetched ≤ result }
{
    if has(kept, name) {
        fetched
    } else {
        fetched.saturating_add(1)
    }
}

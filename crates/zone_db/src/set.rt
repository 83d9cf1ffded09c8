//! Sets of zones.
ghost use Rattle.std.specs.Prelude.{◌≡◌, ◌↔◌, ◌<◌, ◌≤◌, ◌+◌, ◌++◌, ◌∷◌, [], IsTrue, OnOk, OnErr, IfErr};
ghost use Rattle.std.specs.Option.{option_map};
ghost use Rattle.zone_db.specs.Sets.{AreZones, HoldsApex, IsFull, record_count};

use crate::count::count_with;
use crate::deciding::deciding_zone;
use crate::fault::AddFault;
use crate::found::Found;
use crate::lookup::found_in;
use dns_name::Name;
use std::alloc::Global;
use std::marker::Model;
use zone_build::Zone;

/// At most 64 zones with distinct apexes and at most 400,000 records.
#[derive(Drop)]
pub struct ZoneSet {
    zones: Vec<Zone>,
    // How many rules and CNAMEs they hold.
    count: u32,
}

impl Model for ZoneSet {
    ghost use Rattle.std.specs.Prelude.{◌≡◌, List};
    ghost use Rattle.naptr_data.specs.Zones.{rules_and_aliases};
    ghost use Rattle.zone_build.specs.Plain.{told};
    ghost use Rattle.zone_build.specs.Zone.{Zone};
    ghost use Rattle.zone_db.specs.Sets.{AreZones};

    ghost Value = { List Zone };

    ghost view = { λ s. s.zones.items };

    ghost invariant = { λ s. record {
      set : AreZones s.zones.items;
      counted : s.count ≡ rules_and_aliases (told s.zones.items);
    } };
}

impl ZoneSet {
    ghost use Rattle.zone_db.specs.Sets.{AreZones, HoldsApex, IsFull, IsAddFault};
    ghost use Rattle.naptr_data.specs.Zones.{rules_and_aliases};
    ghost use Rattle.zone_db.specs.LookUp.{IsDeciding, IsFound};
    ghost use Rattle.zone_build.specs.Plain.{told};

    /// No zones; this takes no memory.
    pub fn new(alloc: Global) -> ZoneSet
        ensures { result ≡ [] }
    {
        ZoneSet {
            zones: Vec::new(alloc),
            count: 0,
        }
    }

    /// The zones, in the order of adding.
    pub fn zones(&self) -> &[Zone]
        ensures zones { result.now ≡ self.now }
        ensures set { AreZones self.now }
    {
        self.zones.as_slice()
    }

    /// Adds a zone after the others.
    ///
    /// # Errors
    /// The first `AddFault` that holds, and the zone.
    pub fn add(&mut self, zone: Zone) -> Result<(), (AddFault, Zone)>
        ensures ok { OnOk result (self.new ≡ self.old ++ zone ∷ []) }
        ensures fits { OnOk result (¬ HoldsApex self.old zone.apex × ¬ IsFull self.old zone) }
        ensures fault { IfErr result (λ e. IsAddFault self.old zone e.0) }
        ensures zone { IfErr result (λ e. e.1 ≡ zone) }
        ensures err { OnErr result (self.new ≡ self.old) }
    {
        if holds_apex(self.zones.as_slice(), &zone.apex()) {
            return Err((AddFault::SameApex, zone));
        }
        if is_full(self.zones.as_slice(), &zone) {
            return Err((AddFault::Full, zone));
        }
        let count = count_with(self.count, self.zones.as_slice(), &zone);
        match self.zones.push(zone) {
            Ok(()) => {
                self.count = count;
                Ok(())
            }
            Err(failed) => Err((AddFault::Memory, failed.value)),
        }
    }

    /// How many rules and CNAMEs the zones hold.
    pub fn rules_and_aliases(&self) -> u32
        ensures count { result ≡ rules_and_aliases (told self.now) }
        ensures few { result ≤ 400_000 }
    {
        self.count
    }

    /// The zone that decides of a name: of those with an apex at or above it the one with the longest.
    pub fn deciding(&self, name: &Name) -> Option<&Zone>
        ensures { IsDeciding self.now name.now (option_map (λ z. z.now) result) }
    {
        deciding_zone(self.zones(), name)
    }

    /// What is found for a name and a kind, 255 for all kinds (RFC 1034, 4.3.2; RFC 4592).
    pub fn lookup(&self, name: &Name, kind: u16) -> Found<'_>
        ensures { IsFound self.now name.now kind result }
    {
        match self.deciding(name) {
            Some(zone) => found_in(zone, name, kind),
            None => Found::Outside,
        }
    }
}

// Whether a zone of that apex is among the zones.
fn holds_apex(zones: &[Zone], apex: &Name) -> bool
    ensures { IsTrue result ↔ HoldsApex zones.now apex.now }
{
    for zone in zones {
        if zone.apex().same(apex) {
            return true;
        }
    }
    false
}

// Whether the zone does not fit among the zones.
fn is_full(zones: &[Zone], zone: &Zone) -> bool
    requires { AreZones zones.now }
    ensures { IsTrue result ↔ IsFull zones.now zone.now }
{
    if zones.len() >= 64 {
        return true;
    }
    zone.records().len() > 400_000 - count_records(zones)
}

// How many records the zones hold.
fn count_records(zones: &[Zone]) -> usize
    requires { AreZones zones.now }
    ensures count { result ≡ record_count zones.now }
    ensures few { result ≤ 400_000 }
{
    let mut count = 0;
    for zone in zones {
        count += zone.records().len();
    }
    count
}

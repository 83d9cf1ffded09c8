//! A set of zones as a source of rules.
ghost use Rattle.std.specs.Prelude.{◌≡◌};

use crate::offer::offer_of;
use crate::set::ZoneSet;
use dns_name::Name;
use naptr_data::{Offer, RuleSource, SourceFault};
use std::alloc::Global;
use std::marker::Model;

/// A set of zones that is asked for rules. It tells its zones, has no trouble and keeps no names.
#[derive(Drop)]
pub struct ZoneSource<'a> {
    zones: &'a ZoneSet,
    asks: u64,
}

impl<'a> Model for ZoneSource<'a> {
    ghost use Rattle.zone_db.specs.Offering.{Asked};

    ghost Value = { Asked };

    ghost view = { λ s. record { zones = s.zones.now; asks = s.asks } };
}

impl<'a> ZoneSource<'a> {
    /// A source that was asked never.
    pub fn new(zones: &'a ZoneSet) -> ZoneSource<'a>
        ensures { result ≡ record { zones = zones.now; asks = 0 } }
    {
        ZoneSource { zones, asks: 0 }
    }
}

impl<'a> RuleSource for ZoneSource<'a> {
    ghost use Rattle.std.specs.Prelude.{Some, [], false};
    ghost use Rattle.zone_build.specs.Plain.{told};

    ghost state = { λ s. record {
      zones = Some (told s.zones);
      asks = s.asks;
      troubles = 0;
      failed = false;
      room = 0;
      kept = [];
      fetched = s.asks;
      lent = [];
    } };

    fn offer(&mut self, alloc: Global, name: &Name) -> Result<Offer, SourceFault> {
        self.asks = self.asks.saturating_add(1);
        offer_of(alloc, self.zones, name)
    }
}

//! What a registry holds at names.
ghost use Rattle.std.specs.Prelude.{◌≡◌, ◌≢◌, ◌↔◌, ◌≤◌, false, IsTrue};
ghost use Rattle.dns_name.specs.Name.{folded_labels, IsBelow};
ghost use Rattle.naptr_data.specs.Zones.{Labels};
ghost use Rattle.dns_wire.specs.Kinds.{naptr, soa};
ghost use Rattle.zone_build.specs.Zone.{IsSet, IsValid, weight};
ghost use Rattle.zone_db.specs.Offering.{RdataRises};
ghost use Rattle.zone_db.specs.LookUp.{HasKind, IsCut};
ghost use Rattle.registry.specs.Commands.{HasNoRoom, HasRecord, HasRule, IsOutside};
ghost use Rattle.registry.specs.Holding.{AreRules, IsHeld};
ghost use Rattle.dns_wire.specs.declared.record.Record.{Record};

use crate::fresh::has_room;
use crate::place::{Place, place_of};
use crate::registry::Registry;
use dns_name::Name;
use dns_wire::{Record, kinds};
use naptr_data::Naptr;

// The kinds of the records of zones, but for the SOA.
const OTHER_KINDS: [u16; 9] = [
    kinds::A,
    kinds::NS,
    kinds::CNAME,
    kinds::PTR,
    kinds::MX,
    kinds::TXT,
    kinds::AAAA,
    kinds::SRV,
    kinds::NAPTR,
];

impl Registry {
    /// The set of that owner and kind, which is not that of the SOA.
    pub(crate) fn set(&self, owner: &Name, kind: u16) -> &[Record]
        requires { kind ≢ soa }
        ensures set { IsSet self.now.records owner.now kind result.now }
        ensures held { IsHeld (folded_labels owner.now) kind result.now }
        ensures valid { IsValid self.now }
    {
        self.sets.set(owner, kind)
    }

    /// Whether a record of that kind, which is not the SOA, is at the owner.
    pub(crate) fn has_kind(&self, owner: &Name, kind: u16) -> bool
        requires { kind ≢ soa }
        ensures { IsTrue result ↔ HasKind self.now owner.now kind }
    {
        self.set(owner, kind).len() > 0
    }

    /// Whether any record is at the owner.
    pub(crate) fn has_record(&self, owner: &Name) -> bool
        ensures { IsTrue result ↔ HasRecord self.now owner.now }
    {
        if self.soa.owner.same(owner) {
            return true;
        }
        for kind in OTHER_KINDS {
            if self.has_kind(owner, kind) {
                return true;
            }
        }
        false
    }

    /// Whether the owner is not the zone's own.
    pub(crate) fn is_outside(&self, owner: &Name) -> bool
        ensures { IsTrue result ↔ IsOutside self.now owner.now }
    {
        !owner.is_below(&self.apex) || self.is_cut_off(owner)
    }

    // Whether a cut is at or above the name.
    fn is_cut_off(&self, name: &Name) -> bool
        requires { IsBelow name.now self.now.apex }
        ensures { IsTrue result ↔ ((cut : Labels) × IsCut self.now cut × IsBelow name.now cut) }
    {
        if name.same(&self.apex) {
            return false;
        }
        if self.has_kind(name, kinds::NS) {
            return true;
        }
        match name.parent() {
            Some(above) => self.is_cut_off(&above),
            None => false,
        }
    }

    /// Whether the rule is at the owner.
    pub(crate) fn has_rule(&self, owner: &Name, rule: &Naptr) -> bool
        ensures { IsTrue result ↔ HasRule self.now owner.now rule.now }
    {
        matches!(place_of(self.rules_at(owner), rule), Place::Taken(_))
    }

    // The rules at an owner.
    fn rules_at(&self, owner: &Name) -> &[Record]
        ensures set { IsSet self.now.records owner.now naptr result.now }
        ensures rules { AreRules result.now }
        ensures rising { RdataRises result.now }
        ensures small { weight result.now ≤ 60_000 }
    {
        self.set(owner, kinds::NAPTR)
    }

    /// Whether the rules at the owner are still a small enough set with one more.
    pub(crate) fn has_room(&self, owner: &Name, rule: &Naptr) -> bool
        ensures room { IsTrue result → ¬ HasNoRoom self.now owner.now rule.now }
        ensures full { result ≡ false → HasNoRoom self.now owner.now rule.now }
    {
        has_room(self.rules_at(owner), rule)
    }
}

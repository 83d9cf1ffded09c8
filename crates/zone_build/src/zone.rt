//! Zones of given records.
ghost use Rattle.std.specs.Prelude.{◌≡◌, ◌↔◌, ◌≤◌, length, Contains, IsTrue, IfOk, IfErr, map, if◌then◌else◌};
ghost use Rattle.naptr_data.specs.Zones.{holds_one, rules_and_aliases_in};
ghost use Rattle.zone_build.specs.Plain.{item_of, owned_of};

use crate::arrange::arranged;
use crate::build::{last_fault, plan_of};
use crate::fault::ZoneFault;
use crate::find::{has_below, least_kind_of, set_of};
use crate::index::Index;
use crate::indexing::index_of;
use dns_name::Name;
use dns_wire::{Content, Record, Records};
use std::alloc::Global;
use std::marker::Model;

/// A valid zone: its apex and its records in canonical order, the SOA first.
#[derive(Drop)]
pub struct Zone {
    apex: Name,
    records: Vec<Record>,
    index: Index,
    // How many rules and CNAMEs the records hold.
    count: usize,
}

impl Model for Zone {
    ghost use Rattle.zone_build.specs.Zone as zone;
    ghost use Rattle.std.specs.Prelude.{◌≡◌, ◌≤◌, length, map};
    ghost use Rattle.naptr_data.specs.Zones.{rules_and_aliases_in};
    ghost use Rattle.zone_build.specs.Indexing.{IsIndex};
    ghost use Rattle.zone_build.specs.Plain.{owned_of};

    ghost Value = { zone.Zone };

    ghost view = { λ z. record { apex = z.apex; records = z.records.items } };

    ghost invariant = { λ z. record {
      valid : zone.IsValid (record { apex = z.apex; records = z.records.items });
      indexed : IsIndex z.records.items z.apex z.index;
      counted : z.count ≡ rules_and_aliases_in (map owned_of z.records.items);
      few : z.count ≤ length z.records.items;
    } };
}

impl Zone {
    ghost use Rattle.dns_name.specs.Name.{AreSame, IsBelow};
    ghost use Rattle.zone_build.specs.Zone.{IsPlain, IsSet, IsValid};
    ghost use Rattle.zone_build.specs.Finding.{IsLeastKindAt};
    ghost use Rattle.naptr_data.specs.Zones.{rules_and_aliases_in};
    ghost use Rattle.zone_build.specs.Built.{IsBuilt};
    ghost use Rattle.zone_build.specs.Plain.{plain_of};
    ghost use Rattle.zone_build.specs.Faults.{IsZoneFault};
    ghost use Rattle.dns_wire.specs.declared.record.Record.{Record};

    /// The zone of these records: owners folded, repeats of owner, kind and RDATA counted once, and of each set the
    /// least TTL.
    ///
    /// # Errors
    /// The first `ZoneFault` that holds.
    pub fn build(alloc: Global, records: Records) -> Result<Zone, ZoneFault>
        requires { (one : Record) → Contains records one → IsPlain one }
        ensures built { IfOk result (IsBuilt records) }
        ensures valid { IfOk result IsValid }
        ensures fault { IfErr result (IsZoneFault records) }
    {
        let plan = match plan_of(alloc, records.as_slice()) {
            Ok(plan) => plan,
            Err(fault) => return Err(fault),
        };
        let kept = arranged(alloc, records.into_items(), plan.keeps.as_slice())?;
        match last_fault(kept.as_slice(), plan.cut) {
            Some(fault) => Err(fault),
            None => Ok(Zone {
                index: index_of(alloc, kept.as_slice(), &plan.apex)?,
                count: count_in(kept.as_slice()),
                apex: plan.apex,
                records: kept,
            }),
        }
    }

    /// The records of exactly that kind whose owner is that name, compared folded.
    pub fn set(&self, owner: &Name, kind: u16) -> &[Record]
        ensures { IsSet self.now.records owner.now kind result.now }
    {
        set_of(self.records.as_slice(), &self.index, owner, kind)
    }

    /// The least kind of the records whose owner is that name, compared folded.
    pub fn least_kind(&self, owner: &Name) -> Option<u16>
        ensures { IsLeastKindAt self.now.records owner.now result }
    {
        least_kind_of(self.records.as_slice(), &self.index, owner)
    }

    /// Whether a record is at or below a name that is itself below the apex (RFC 4592, 2.2.2).
    pub fn has_below(&self, name: &Name) -> bool
        requires inside { IsBelow name.now self.now.apex }
        requires below { ¬ AreSame name.now self.now.apex }
        ensures { IsTrue result ↔ ((one : Record) × Contains self.now.records one × IsBelow one.owner name.now) }
    {
        has_below(self.records.as_slice(), &self.index, &self.apex, name)
    }

    /// How many rules and CNAMEs it holds.
    pub fn rules_and_aliases(&self) -> usize
        ensures count { result ≡ rules_and_aliases_in (plain_of self.now).items }
        ensures few { result ≤ length self.now.records }
    {
        self.count
    }

    /// The apex, folded.
    pub fn apex(&self) -> Name
        ensures apex { result ≡ self.now.apex }
        ensures valid { IsValid self.now }
    {
        self.apex
    }

    /// The records in canonical order: the SOA, and then the others by owner, kind and RDATA.
    pub fn records(&self) -> &[Record]
        ensures records { result.now ≡ self.now.records }
        ensures valid { IsValid self.now }
    {
        self.records.as_slice()
    }
}

/// The rules and CNAMEs among records.
pub(crate) fn count_in(records: &[Record]) -> usize
    ensures count { result ≡ rules_and_aliases_in (map owned_of records.now) }
    ensures few { result ≤ length records.now }
{
    let mut count = 0;
    for one in records {
        if is_rule_or_alias(&one.content) {
            count += 1;
        }
    }
    count
}

fn is_rule_or_alias(said: &Content) -> bool
    ensures { (if result then 1 else 0) ≡ holds_one (item_of said.now) }
{
    matches!(said, Content::Naptr(_) | Content::Cname(_))
}

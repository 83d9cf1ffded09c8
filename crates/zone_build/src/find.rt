//! The records at a name, found by the index.
ghost use Rattle.std.specs.Prelude.{◌≡◌, ◌≢◌, ◌↔◌, ◌<◌, ◌≤◌, ℕ, length, IsTrue, Contains};
ghost use Rattle.dns_name.specs.Name.{AreSame, IsBelow};
ghost use Rattle.dns_wire.specs.Kinds.{soa};
ghost use Rattle.zone_build.specs.Zone.{IsCanonical, IsSet};
ghost use Rattle.zone_build.specs.Finding.{IsKindStart, IsLeastKindAt, least_kind_with};
ghost use Rattle.zone_build.specs.Indexing.{ArePlaces, FindsOwners, IsIndex, kind_at, owner_at};
ghost use Rattle.dns_wire.specs.declared.record.Record.{Record};

use crate::index::{Index, Places, Sought, owner_at};
use dns_name::Name;
use dns_wire::Record;

/// The set of that owner, compared folded, and kind.
pub(crate) fn set_of<'a>(
    records: &'a [Record],
    index: &Index,
    owner: &Name,
    kind: u16,
) -> &'a [Record]
    requires canonical { IsCanonical records.now }
    requires index { FindsOwners records.now index.now }
    ensures { IsSet records.now owner.now kind result.now }
{
    if kind == 6 {
        return soa_set(records, owner);
    }
    match index.find(records, owner, Sought::At) {
        Some(places) => set_in(records, places, kind),
        None => &records[..0],
    }
}

// The SOA, where that is its owner.
fn soa_set<'a>(records: &'a [Record], owner: &Name) -> &'a [Record]
    requires { IsCanonical records.now }
    ensures { IsSet records.now owner.now soa result.now }
{
    if owner_at(records, 0).same(owner) {
        return &records[..1];
    }
    &records[..0]
}

// The set of that kind, which is not that of an SOA, at those places.
fn set_in(records: &[Record], places: Places, kind: u16) -> &[Record]
    requires canonical { IsCanonical records.now }
    requires places { ArePlaces records.now places }
    requires other { kind ≢ soa }
    ensures { IsSet records.now (owner_at records.now places.first) kind result.now }
{
    let from = kind_start(records, places, u32::from(kind));
    let end = kind_start(records, places, u32::from(kind) + 1);
    let rest = &records[from..];
    &rest[..end - from]
}

// The first of those places from which on no kind is less.
fn kind_start(records: &[Record], places: Places, kind: u32) -> usize
    requires canonical { IsCanonical records.now }
    requires places { ArePlaces records.now places }
    ensures { IsKindStart records.now places kind result }
{
    let mut low = places.first;
    let mut high = places.end;
    while low < high {
        let middle = low + (high - low) / 2;
        if u32::from(kind_at(records, middle)) < kind {
            low = middle + 1;
        } else {
            high = middle;
        }
    }
    low
}

/// The least kind of the records at that owner, compared folded.
pub(crate) fn least_kind_of(records: &[Record], index: &Index, owner: &Name) -> Option<u16>
    requires canonical { IsCanonical records.now }
    requires index { FindsOwners records.now index.now }
    ensures { IsLeastKindAt records.now owner.now result }
{
    let is_apex = owner_at(records, 0).same(owner);
    match index.find(records, owner, Sought::At) {
        Some(places) => Some(lesser_kind(is_apex, kind_at(records, places.first))),
        None if is_apex => Some(6),
        None => None,
    }
}

// The kind, or where the SOA is there too the lesser of the two.
fn lesser_kind(is_apex: bool, kind: u16) -> u16
    ensures { result ≡ least_kind_with is_apex kind }
{
    if is_apex && kind > 6 { 6 } else { kind }
}

/// Whether a record is at or below the name, which is below the apex.
pub(crate) fn has_below(records: &[Record], index: &Index, apex: &Name, name: &Name) -> bool
    requires index { IsIndex records.now apex.now index.now }
    requires soa { owner_at records.now 0 ≡ apex.now }
    requires inside { IsBelow name.now apex.now }
    requires below { ¬ AreSame name.now apex.now }
    ensures { IsTrue result ↔ ((one : Record) × Contains records.now one × IsBelow one.owner name.now) }
{
    index.find(records, name, Sought::Below).is_some()
}

// The kind of the record at a place.
fn kind_at(records: &[Record], place: usize) -> u16
    requires { place < length records.now }
    ensures { result ≡ kind_at records.now place }
{
    records[place].kind
}

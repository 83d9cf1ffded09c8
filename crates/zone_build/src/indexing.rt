//! The index of records in canonical order.
ghost use Rattle.std.specs.Prelude.{◌≡◌, ◌<◌, ◌≤◌, ℕ, length, IsTrue, OnOk, IfOk};
ghost use Rattle.dns_name.specs.Name.{AreSame, IsBelow};
ghost use Rattle.zone_build.specs.Zone.{IsCanonical};
ghost use Rattle.zone_build.specs.Indexing.{ArePlaces, AllPlaces, IsIndex, FindsOwners, IsRunEnd, HasBelow};
ghost use Rattle.zone_build.specs.Indexing.{CoversAbove, CoversBefore, IsAboveEarlier, IsGrown, owner_at};

use crate::index::{Index, Places, Sought, owner_at, seed_of};
use crate::order::cmp_owners;
use dns_name::Name;
use dns_wire::Record;
use enum_base::MemoryFault;
use std::alloc::Global;
use std::cmp::Ordering;

/// The index of the records, whose SOA is at the apex.
pub(crate) fn index_of(alloc: Global, records: &[Record], apex: &Name) -> Result<Index, MemoryFault>
    requires { IsCanonical records.now }
    ensures { IfOk result (IsIndex records.now apex.now) }
{
    let mut index = Index::new(alloc, seed_of(records));
    add_owners(&mut index, records)?;
    add_names(&mut index, records, apex)?;
    Ok(index)
}

// Adds each owner.
fn add_owners(index: &mut Index, records: &[Record]) -> Result<(), MemoryFault>
    requires canonical { IsCanonical records.now }
    requires places { AllPlaces records.now index.old }
    ensures { OnOk result (FindsOwners records.now index.new) }
{
    let mut first = 1;
    while first < records.len() {
        let end = end_of(records, first);
        let key = index.key_of(owner_at(records, first));
        index.insert(key, Places { first, end })?;
        first = end;
    }
    Ok(())
}

// Adds each name below the apex that is above an owner, unless it is found already.
fn add_names(index: &mut Index, records: &[Record], apex: &Name) -> Result<(), MemoryFault>
    requires canonical { IsCanonical records.now }
    requires owners { FindsOwners records.now index.old }
    ensures { OnOk result (IsIndex records.now apex.now index.new) }
{
    let mut first = 1;
    while first < records.len() {
        let end = end_of(records, first);
        let owner = owner_at(records, first);
        add_above(index, records, apex, Places { first, end }, owner)?;
        first = end;
    }
    Ok(())
}

// Adds the names above one that is found, up to the apex or to one that is above an owner that was passed.
fn add_above(
    index: &mut Index,
    records: &[Record],
    apex: &Name,
    places: Places,
    name: &Name,
) -> Result<(), MemoryFault>
    requires places { ArePlaces records.now places }
    requires all { AllPlaces records.now index.old }
    requires below { IsBelow (owner_at records.now places.first) name.now }
    requires before { CoversBefore records.now apex.now places.first index.old }
    requires there { HasBelow records.now index.old name.now }
    ensures grown { OnOk result (IsGrown records.now index.old index.new) }
    ensures above { OnOk result (CoversAbove records.now apex.now name.now index.new) }
{
    if name.same(apex) {
        return Ok(());
    }
    let Some(above) = name.parent() else {
        return Ok(());
    };
    if add_name(index, records, places, &above)? {
        return Ok(());
    }
    add_above(index, records, apex, places, &above)
}

// Adds the name, unless it is found already, and answers whether it is found for an owner that was passed.
fn add_name(
    index: &mut Index,
    records: &[Record],
    places: Places,
    name: &Name,
) -> Result<bool, MemoryFault>
    requires places { ArePlaces records.now places }
    requires all { AllPlaces records.now index.old }
    requires below { IsBelow (owner_at records.now places.first) name.now }
    ensures grown { OnOk result (IsGrown records.now index.old index.new) }
    ensures has { OnOk result (HasBelow records.now index.new name.now) }
    ensures passed { IfOk result (λ passed. IsTrue passed → IsAboveEarlier records.now places.first name.now) }
{
    let key = index.key_of(name);
    match index.find_under(key, records, name, Sought::Below) {
        Some(found) => Ok(found.first < places.first),
        None => {
            index.insert(key, places)?;
            Ok(false)
        }
    }
}

// The end of the records of the owner of that one.
fn end_of(records: &[Record], first: usize) -> usize
    requires canonical { IsCanonical records.now }
    requires after_soa { 0 < first }
    requires within { first < length records.now }
    ensures { IsRunEnd records.now first result }
{
    let owner = owner_at(records, first);
    for at in first + 1..records.len() {
        match cmp_owners(owner, owner_at(records, at)) {
            Ordering::Equal => {}
            _ => return at,
        }
    }
    records.len()
}

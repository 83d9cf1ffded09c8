//! The SOA of given records, and what does not go with it.
ghost use Rattle.std.specs.Prelude.{◌≡◌, ◌↔◌, ◌<◌, length, slice_index_or, IsTrue, Contains, MatchOption, IfSome, IfNone};
ghost use Rattle.dns_name.specs.Name.{IsBelow};
ghost use Rattle.dns_wire.specs.Kinds.{soa};
ghost use Rattle.dns_wire.specs.declared.record.Record.{Record};
ghost use Rattle.zone_build.specs.Zone.{AreRepeats, IsWildcard};
ghost use Rattle.zone_build.specs.Faults.{IsFirst, IsWildcardCut};
ghost use Rattle.zone_build.specs.Building.{Given, begins_wildcard};

use crate::entry::{Entry, Key};
use dns_name::Name;
use dns_wire::Record;
use std::cmp::Ordering;

/// The first SOA.
pub(crate) fn first_soa<'a, 'b>(entries: &'a [Entry<'b>]) -> Option<&'a Entry<'b>>
    ensures { MatchOption result ((e : Given) → Contains entries.now e → ¬ (e.given.kind ≡ soa))
        (λ first. Contains entries.now first.now × (first.now.given.kind ≡ soa)) }
{
    for entry in entries {
        if entry.kind() == 6 {
            return Some(entry);
        }
    }
    None
}

/// Whether each SOA is a repeat of this one.
pub(crate) fn is_only_soa(entries: &[Entry<'_>], first: &Entry<'_>) -> bool
    ensures { IsTrue result ↔ ((e : Given) → Contains entries.now e → e.given.kind ≡ soa → AreRepeats first.now.given e.given) }
{
    for entry in entries {
        if !goes_with(first, entry) {
            return false;
        }
    }
    true
}

// Whether the record, where it is an SOA, is a repeat of the first.
fn goes_with(first: &Entry<'_>, entry: &Entry<'_>) -> bool
    ensures { IsTrue result ↔ (entry.now.given.kind ≡ soa → AreRepeats first.now.given entry.now.given) }
{
    entry.kind() != 6 || is_repeat(first, entry)
}

fn is_repeat(one: &Entry<'_>, other: &Entry<'_>) -> bool
    ensures { IsTrue result ↔ AreRepeats one.now.given other.now.given }
{
    match one.cmp_by(other, Key::Whole) {
        Ordering::Equal => true,
        _ => false,
    }
}

/// The place of the first record that is not at or below the apex.
pub(crate) fn first_outside(records: &[Record], apex: &Name) -> Option<usize>
    ensures none { IfNone result ((one : Record) → Contains records.now one → IsBelow one.owner apex.now) }
    ensures some { IfSome result (λ place. (one : Record) × IsFirst (λ r. ¬ IsBelow r.owner apex.now) records.now place one) }
{
    for (place, one) in records.iter().enumerate() {
        if !one.owner.is_below(apex) {
            return Some(place);
        }
    }
    None
}

/// The place of the first NS record whose owner is a wildcard.
pub(crate) fn first_wildcard_cut(records: &[Record]) -> Option<usize>
    ensures none { IfNone result ((one : Record) → Contains records.now one → ¬ IsWildcardCut one) }
    ensures some { IfSome result (λ place. (one : Record) × IsFirst IsWildcardCut records.now place one) }
{
    for (place, one) in records.iter().enumerate() {
        if is_wildcard_cut(one) {
            return Some(place);
        }
    }
    None
}

fn is_wildcard_cut(one: &Record) -> bool
    ensures { IsTrue result ↔ IsWildcardCut one.now }
{
    one.kind == 2 && is_wildcard(&one.owner)
}

// Whether the first label is `*`.
fn is_wildcard(name: &Name) -> bool
    ensures { IsTrue result ↔ IsWildcard name.now }
{
    begins_wildcard(name.wire())
}

// Whether wire bytes begin with the label `*`.
fn begins_wildcard(wire: &[u8]) -> bool
    ensures { result ≡ begins_wildcard wire.now }
{
    match wire {
        [size, first, ..] => *size == 1 && *first == b'*',
        _ => false,
    }
}

/// The record at that place.
pub(crate) fn record_at(records: &[Record], place: usize) -> &Record
    requires { place < length records.now }
    ensures { result.now ≡ slice_index_or records.now place result.now }
{
    &records[place]
}

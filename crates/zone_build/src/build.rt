//! How a zone is made of given records, or which fault they have.
ghost use Rattle.std.specs.Prelude.{◌≡◌, ◌<◌, length, Contains, IfOk, IfErr, IfSome, IfNone, None, ◌↔◌, IsTrue, ◌≤◌, ℕ, take, drop};
ghost use Rattle.dns_wire.specs.declared.record.Record.{Record};
ghost use Rattle.zone_build.specs.Zone.{IsCanonical, IsPlain, IsRising, weight};
ghost use Rattle.zone_build.specs.Faults.{AreUnmixed, IsZoneFault};
ghost use Rattle.zone_build.specs.Building.{AreGivens, IsOrdered, IsFirstLarge, IsApex, IsEntryApex, IsSoaFault};
ghost use Rattle.zone_build.specs.Building.{IsFirstCut, IsPlan, IsLastFault, Given, AreMixed, IsFirstMixed, IsLeastPlace, least_of, IsRun, givens_from};
ghost use Rattle.zone_build.specs.declared.entry.Key.TheVariants.{Set};

use crate::entry::{Entry, Key};
use crate::fault::ZoneFault;
use crate::keep::{Keep, kept_of};
use crate::order::cmp_sets;
use crate::soa::{first_outside, first_soa, first_wildcard_cut, is_only_soa, record_at};
use crate::sort::{run_at, run_len, sorted_entries};
use dns_name::Name;
use dns_wire::Record;
use std::alloc::Global;
use std::cmp::Ordering;

/// How a zone is made of given records.
#[derive(Drop)]
pub(crate) struct Plan {
    pub(crate) apex: Name,
    pub(crate) keeps: Vec<Keep>,
    /// The folded owner of the first delegated wildcard.
    pub(crate) cut: Option<Name>,
}

/// How a zone is made of the records, where they pass the tests of one list.
pub(crate) fn plan_of(alloc: Global, given: &[Record]) -> Result<Plan, ZoneFault>
    requires { (one : Record) → Contains given.now one → IsPlain one }
    ensures ok { IfOk result (λ plan. IsPlan given.now plan.apex plan.keeps.items plan.cut) }
    ensures err { IfErr result (IsZoneFault given.now) }
{
    let entries = sorted_entries(alloc, given)?;
    let apex = match checked_apex(given, entries.as_slice()) {
        Ok(apex) => apex,
        Err(fault) => return Err(fault),
    };
    Ok(Plan {
        apex,
        keeps: kept_of(alloc, entries.as_slice())?,
        cut: first_cut(given),
    })
}

// The apex, where the records pass the tests of one list.
fn checked_apex(given: &[Record], entries: &[Entry<'_>]) -> Result<Name, ZoneFault>
    requires givens { AreGivens given.now entries.now }
    requires ordered { IsOrdered entries.now }
    ensures ok { IfOk result (λ apex. AreUnmixed given.now × IsApex given.now apex) }
    ensures err { IfErr result (IsZoneFault given.now) }
{
    let apex = match soa_apex(entries) {
        Ok(apex) => apex,
        Err(fault) => return Err(fault),
    };
    if let Some(place) = first_outside(given, &apex) {
        return Err(ZoneFault::OutOfZone { place });
    }
    if let Some(place) = first_mixed(entries) {
        return Err(ZoneFault::AliasClash {
            name: record_at(given, place).owner.fold(),
        });
    }
    Ok(apex)
}

// The folded owner of the SOA.
fn soa_apex(entries: &[Entry<'_>]) -> Result<Name, ZoneFault>
    ensures ok { IfOk result (IsEntryApex entries.now) }
    ensures err { IfErr result (IsSoaFault entries.now) }
{
    let Some(first) = first_soa(entries) else {
        return Err(ZoneFault::NoSoa);
    };
    if !is_only_soa(entries, first) {
        return Err(ZoneFault::TwoSoa);
    }
    Ok(first.record().owner.fold())
}

// The folded owner of the first delegated wildcard.
fn first_cut(given: &[Record]) -> Option<Name>
    ensures { IsFirstCut given.now result }
{
    match first_wildcard_cut(given) {
        Some(place) => Some(record_at(given, place).owner.fold()),
        None => None,
    }
}

/// What is wrong with the records that are kept.
pub(crate) fn last_fault(kept: &[Record], cut: Option<Name>) -> Option<ZoneFault>
    requires { IsCanonical kept.now }
    ensures none { IfNone result (IsFirstLarge kept.now None × (cut ≡ None)) }
    ensures some { IfSome result (IsLastFault kept.now cut) }
{
    if let Some(place) = too_large(kept) {
        let one = record_at(kept, place);
        return Some(ZoneFault::SetTooLarge {
            name: one.owner,
            kind: one.kind,
        });
    }
    match cut {
        Some(name) => Some(ZoneFault::WildcardCut { name }),
        None => None,
    }
}

// The place of the first record whose set is too large.
fn too_large(kept: &[Record]) -> Option<usize>
    requires { IsCanonical kept.now }
    ensures first { IsFirstLarge kept.now result }
    ensures within { IfSome result (λ place. place < length kept.now) }
{
    let (soa, others) = kept.split_at(1);
    if let Some(_) = first_large(soa) {
        return Some(0);
    }
    match first_large(others) {
        Some(place) => Some(place + 1),
        None => None,
    }
}

/// The least place of a record whose owner has a CNAME beside something else.
pub(crate) fn first_mixed(sorted: &[Entry<'_>]) -> Option<usize>
    requires { IsOrdered sorted.now }
    ensures { IsFirstMixed sorted.now result }
{
    let mut first = None;
    let mut at = 0;
    while at < sorted.len() {
        let owner = run_at(sorted, at, Key::Owner);
        if is_mixed(owner) {
            first = lesser(first, least_place(owner));
        }
        at += owner.len();
    }
    first
}

// Whether a CNAME is among the entries, which are of one owner, and not all are repeats.
fn is_mixed(owner: &[Entry<'_>]) -> bool
    requires some { 0 < length owner.now }
    requires ordered { IsOrdered owner.now }
    ensures { IsTrue result ↔ AreMixed owner.now }
{
    run_len(owner, Key::Whole) < owner.len() && has_alias(owner)
}

fn has_alias(owner: &[Entry<'_>]) -> bool
    ensures { IsTrue result ↔ ((e : Given) × Contains owner.now e × (e.given.kind ≡ 5)) }
{
    for entry in owner {
        if entry.record().kind == 5 {
            return true;
        }
    }
    false
}

// The least place of the entries.
fn least_place(owner: &[Entry<'_>]) -> usize
    requires { 0 < length owner.now }
    ensures { IsLeastPlace owner.now result }
{
    let mut least = owner[0].place();
    for entry in owner {
        let place = entry.place();
        if place < least {
            least = place;
        }
    }
    least
}

// The lesser of the two.
fn lesser(first: Option<usize>, place: usize) -> Option<usize>
    ensures { result ≡ Some (least_of first place) }
{
    match first {
        Some(known) if known < place => Some(known),
        _ => Some(place),
    }
}

/// The place of the first record whose set is too large, among records that rise.
pub(crate) fn first_large(records: &[Record]) -> Option<usize>
    requires { IsRising records.now }
    ensures first { IsFirstLarge records.now result }
    ensures within { IfSome result (λ place. place < length records.now) }
{
    let mut at = 0;
    while at < records.len() {
        let set = set_at(records, at);
        if is_large(set) {
            return Some(at);
        }
        at += set.len();
    }
    None
}

// The records from that place on that are of one set.
fn set_at(records: &[Record], at: usize) -> &[Record]
    requires within { at < length records.now }
    requires rising { IsRising records.now }
    ensures run { IsRun Set (drop at (givens_from 0 records.now)) (length result.now) }
    ensures part { result.now ≡ take (length result.now) (drop at records.now) }
{
    let rest = &records[at..];
    &rest[..set_len(rest)]
}

// How many records in front are of one set.
fn set_len(rest: &[Record]) -> usize
    requires some { 0 < length rest.now }
    requires rising { IsRising rest.now }
    ensures run { (place : ℕ) → IsRun Set (givens_from place rest.now) result }
    ensures within { result ≤ length rest.now }
{
    let head = &rest[0];
    for at in 1..rest.len() {
        match cmp_sets(head, &rest[at]) {
            Ordering::Equal => {}
            _ => return at,
        }
    }
    rest.len()
}

// Whether the set weighs more than 60,000.
fn is_large(set: &[Record]) -> bool
    ensures { IsTrue result ↔ (60_000 < weight set.now) }
{
    let mut sum = 0;
    for one in set {
        let size = one.content.rdata_len();
        if size > 60_000 {
            return true;
        }
        sum += 265 + size;
        if sum > 60_000 {
            return true;
        }
    }
    false
}

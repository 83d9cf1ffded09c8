//! What is added to a reply for a name that is looked up (RFC 1034, 4.3.2).
ghost use Rattle.std.specs.Prelude.{◌≡◌, ◌+◌, ◌≤◌, ◌∷◌, ◌++◌, [], Contains, IsTrue, ◌↔◌, IfOk, OnOk, List, ℕ};
ghost use Rattle.std.specs.List.{AllByRecursion};
ghost use Rattle.dns_name.specs.Name.{folded_labels};
ghost use Rattle.dns_wire.specs.declared.record.Record.{Record};
ghost use Rattle.zone_build.specs.Zone.{weight};
ghost use Rattle.zone_db.specs.LookUp.{IsFound, shown};
ghost use Rattle.zone_db.specs.Replies.{Adds, Follows, IsGlue, IsNegative, Refers, nothing, owned_by};
ghost use Rattle.zone_db.specs.declared.found.Found.TheVariants as f;
ghost use Rattle.responder.specs.Drafting.{AddsNegative, IsReferral, added_size, most_added};
ghost use Rattle.responder.specs.Ready.{IsAliasOf, TellsServer, TellsSoa};
ghost use Rattle.responder.specs.Sizes.{size};

use crate::copies::{copies, negative_soa, owned_by};
use crate::glue::glue_of;
use crate::laws::found_is_ready;
use crate::plan::NXDOMAIN;
use dns_name::{Name, Names};
use dns_wire::{Content, Question, Record, Records};
use enum_base::MemoryFault;
use std::alloc::Global;
use zone_db::{Added, Found, Zone, ZoneSet};

/// What is added for a name by what was found for it, after which so many aliases may be followed; and the code of a
/// name that no zone serves. `seen` has the folded names that were looked up.
pub(crate) fn added_for(
    alloc: Global,
    zones: &ZoneSet,
    question: &Question,
    more: u8,
    seen: &mut Names,
    code: u8,
    found: Found<'_>,
) -> Result<Added, MemoryFault>
    requires { IsFound zones.now question.now.name question.now.kind found }
    ensures adds { IfOk result (Adds (Follows zones.now question.now.kind more seen.old) zones.now question.now.name code (shown found.entry)) }
    ensures size { IfOk result (λ added. added_size added ≤ most_added more) }
{
    match found {
        Found::Outside => Ok(nothing(alloc, code)),
        Found::Cut(set) => referral(alloc, zones, question, set),
        Found::Alias(set) => {
            let target = target_of(zones, question, set);
            if more == 0 || was_seen(seen.as_slice(), &target) {
                return with_alias(alloc, &question.name, set, nothing(alloc, 0));
            }
            seen.push(target.fold())?;
            let next = Question {
                name: target,
                kind: question.kind,
                class: question.class,
            };
            let rest = added_for(
                alloc,
                zones,
                &next,
                more - 1,
                seen,
                0,
                zones.lookup(&target, question.kind),
            )?;
            with_alias(alloc, &question.name, set, rest)
        }
        Found::Set(set) => set_added(alloc, zones, question, set),
        Found::NoSet(soa) => no_set_added(alloc, zones, question, soa),
        Found::NoName(soa) => no_name_added(alloc, zones, question, soa),
    }
}

/// A code, and nothing is added. Takes no memory.
pub(crate) fn nothing(alloc: Global, code: u8) -> Added
    ensures { result ≡ nothing code }
{
    Added {
        code,
        answers: Records::new(alloc),
        authority: Records::new(alloc),
        glue: Records::new(alloc),
    }
}

// The servers of a cut and their addresses.
fn referral(
    alloc: Global,
    zones: &ZoneSet,
    question: &Question,
    set: &[Record],
) -> Result<Added, MemoryFault>
    requires { IsFound zones.now question.now.name question.now.kind (f.Cut set) }
    ensures refers { IfOk result (Refers zones.now question.now.name set.now) }
    ensures size { IfOk result (λ added. added_size added ≤ 60_000) }
{
    let _zones = zones.zones();
    found_is_ready();
    match zones.deciding(&question.name) {
        Some(zone) => referral_in(alloc, zone, set),
        None => Ok(nothing(alloc, 0)),
    }
}

fn referral_in(alloc: Global, zone: &Zone, set: &[Record]) -> Result<Added, MemoryFault>
    requires servers { AllByRecursion TellsServer set.now }
    requires small { weight set.now ≤ 60_000 }
    ensures referral { IfOk result (IsReferral zone.now set.now) }
    ensures size { IfOk result (λ added. added_size added ≤ 60_000) }
{
    let mut added = nothing(alloc, 0);
    added.authority = copies(alloc, set)?;
    added.glue = glue_of(alloc, zone, set)?;
    Ok(added)
}

// The target of an alias that was found.
fn target_of(zones: &ZoneSet, question: &Question, set: &[Record]) -> Name
    requires { IsFound zones.now question.now.name question.now.kind (f.Alias set) }
    ensures { IsAliasOf set.now result }
{
    let _zones = zones.zones();
    found_is_ready();
    target_in(set)
}

fn target_in(set: &[Record]) -> Name
    requires { (target : List (List ℕ)) × IsAliasOf set.now target }
    ensures { IsAliasOf set.now result }
{
    match &set[0].content {
        Content::Cname(target) => *target,
        _ => Name::root(),
    }
}

// The alias before what is added for its target.
fn with_alias(alloc: Global, name: &Name, set: &[Record], rest: Added) -> Result<Added, MemoryFault>
    requires { (target : List (List ℕ)) × IsAliasOf set.now target }
    ensures added { IfOk result (λ added. added ≡ record rest { answers = owned_by name.now set.now ++ rest.answers }) }
    ensures size { IfOk result (λ added. added_size added ≤ added_size rest + 520) }
{
    let mut answers = alias_by(alloc, name, set)?;
    push_all(rest.answers, &mut answers)?;
    Ok(Added {
        code: rest.code,
        answers,
        authority: rest.authority,
        glue: rest.glue,
    })
}

// An alias, told of a name.
fn alias_by(alloc: Global, name: &Name, set: &[Record]) -> Result<Records, MemoryFault>
    requires { (target : List (List ℕ)) × IsAliasOf set.now target }
    ensures owned { IfOk result (λ owned. owned ≡ owned_by name.now set.now) }
    ensures size { IfOk result (λ owned. size owned ≤ 520) }
{
    let target = target_in(set);
    let _wire = target.wire();
    let _name = name.wire();
    owned_by(alloc, name, set)
}

// Puts the records after the others.
fn push_all(records: Records, out: &mut Records) -> Result<(), MemoryFault>
    ensures { OnOk result (out.new ≡ out.old ++ records) }
{
    for one in records.into_items() {
        out.push(one)?;
    }
    Ok(())
}

// A set, told of the name.
fn set_added(
    alloc: Global,
    zones: &ZoneSet,
    question: &Question,
    set: &[Record],
) -> Result<Added, MemoryFault>
    requires { IsFound zones.now question.now.name question.now.kind (f.Set set) }
    ensures added { IfOk result (λ added. added ≡ record (nothing 0) { answers = owned_by question.now.name set.now }) }
    ensures size { IfOk result (λ added. added_size added ≤ 60_000) }
{
    let _zones = zones.zones();
    found_is_ready();
    let mut added = nothing(alloc, 0);
    added.answers = owned_by(alloc, &question.name, set)?;
    Ok(added)
}

// The SOA, where the name has no such set.
fn no_set_added(
    alloc: Global,
    zones: &ZoneSet,
    question: &Question,
    soa: &Record,
) -> Result<Added, MemoryFault>
    requires { IsFound zones.now question.now.name question.now.kind (f.NoSet soa) }
    ensures added { IfOk result (AddsNegative soa.now 0) }
    ensures size { IfOk result (λ added. added_size added ≤ 60_000) }
{
    let _zones = zones.zones();
    found_is_ready();
    negative(alloc, soa, 0)
}

// The SOA and NXDOMAIN, where the name does not exist.
fn no_name_added(
    alloc: Global,
    zones: &ZoneSet,
    question: &Question,
    soa: &Record,
) -> Result<Added, MemoryFault>
    requires { IsFound zones.now question.now.name question.now.kind (f.NoName soa) }
    ensures added { IfOk result (AddsNegative soa.now 3) }
    ensures size { IfOk result (λ added. added_size added ≤ 60_000) }
{
    let _zones = zones.zones();
    found_is_ready();
    negative(alloc, soa, NXDOMAIN)
}

// A code, and an SOA that goes with it.
fn negative(alloc: Global, soa: &Record, code: u8) -> Result<Added, MemoryFault>
    requires { TellsSoa soa.now }
    ensures added { IfOk result (AddsNegative soa.now code) }
    ensures size { IfOk result (λ added. added_size added ≤ 60_000) }
{
    let told = negative_soa(alloc, soa)?;
    let mut added = nothing(alloc, code);
    added.authority.push(told)?;
    Ok(added)
}

/// Whether the name was looked up already.
fn was_seen(seen: &[Name], target: &Name) -> bool
    ensures { IsTrue result ↔ Contains seen.now (folded_labels target.now) }
{
    let folded = target.fold();
    seen.iter().any(|one| is_name(*one, folded))
}

fn is_name(one: Name, other: Name) -> bool
    ensures { IsTrue result ↔ (one ≡ other) }
{
    one == other
}

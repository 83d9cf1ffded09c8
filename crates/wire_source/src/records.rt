//! What the records of a reply say of a name.
ghost use Rattle.std.specs.Prelude.{◌≡◌, ◌≢◌, ◌↔◌, [], Contains, IsTrue, IfOk, MatchOption};
ghost use Rattle.naptr_data.specs.Sources.{HasFewRules};
ghost use Rattle.naptr_data.specs.Zones.{Labels};
ghost use Rattle.dns_wire.specs.declared.content.Content.TheVariants as content;
ghost use Rattle.dns_wire.specs.declared.content.Soa.{Soa};
ghost use Rattle.dns_wire.specs.declared.record.Record.{Record};
ghost use Rattle.wire_source.specs.Readings.{HasNoAlias, IsAlias, IsFirstAlias, IsReferral, SayRecords};

use crate::rules::rules_at;
use dns_name::Name;
use dns_wire::{Content, Message, Record};
use enum_base::MemoryFault;
use naptr_data::{Offer, Rules};
use std::alloc::Global;

/// What the records say: an alias of the name, its rules, that servers of a zone below have it, or that it has none.
pub(crate) fn offer_in(alloc: Global, name: &Name, message: &Message) -> Result<Offer, MemoryFault>
    ensures said { IfOk result (SayRecords name.now message.now.answers message.now.authority) }
    ensures few { IfOk result HasFewRules }
{
    let answers = message.answers.as_slice();
    if let Some(target) = first_alias(name, answers) {
        return Ok(Offer::Alias(target));
    }
    let rules = rules_at(alloc, name, answers)?;
    let authority = message.authority.as_slice();
    if are_none(&rules) && is_referral(authority) {
        return Ok(Offer::Unserved);
    }
    Ok(Offer::Rules(rules))
}

fn are_none(rules: &Rules) -> bool
    ensures { IsTrue result ↔ (rules.now ≡ []) }
{
    rules.as_slice().is_empty()
}

// The target of the first alias of the name.
fn first_alias(name: &Name, records: &[Record]) -> Option<Name>
    ensures { MatchOption result (HasNoAlias name.now records.now) (IsFirstAlias name.now records.now) }
{
    for one in records {
        if let Some(target) = alias_in(name, one) {
            return Some(target);
        }
    }
    None
}

// The target of the record, if it is an alias of the name.
fn alias_in(name: &Name, one: &Record) -> Option<Name>
    ensures { MatchOption result ((target : Labels) → ¬ IsAlias name.now one.now target) (IsAlias name.now one.now) }
{
    if !one.owner.same(name) {
        return None;
    }
    match &one.content {
        Content::Cname(target) => Some(*target),
        _ => None,
    }
}

// Whether the reply refers to other servers.
fn is_referral(authority: &[Record]) -> bool
    ensures { IsTrue result ↔ IsReferral authority.now }
{
    has_server(authority) && !has_soa(authority)
}

fn has_server(records: &[Record]) -> bool
    ensures { IsTrue result ↔ ((one : Record) × Contains records.now one × ((server : Labels) × (one.content ≡ content.Ns server))) }
{
    for one in records {
        if tells_server(one) {
            return true;
        }
    }
    false
}

fn has_soa(records: &[Record]) -> bool
    ensures { IsTrue result ↔ ((one : Record) × Contains records.now one × ((soa : Soa) × (one.content ≡ content.Soa soa))) }
{
    for one in records {
        if tells_soa(one) {
            return true;
        }
    }
    false
}

fn tells_server(one: &Record) -> bool
    ensures { IsTrue result ↔ ((server : Labels) × (one.now.content ≡ content.Ns server)) }
{
    matches!(&one.content, Content::Ns(_))
}

fn tells_soa(one: &Record) -> bool
    ensures { IsTrue result ↔ ((soa : Soa) × (one.now.content ≡ content.Soa soa)) }
{
    matches!(&one.content, Content::Soa(_))
}

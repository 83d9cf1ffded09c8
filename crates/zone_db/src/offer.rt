//! What zones offer for a name.
ghost use Rattle.std.specs.Prelude.{◌≡◌, ◌∷◌, ◌≤◌, [], length, IfOk, IfErr, OnOk};
ghost use Rattle.naptr_data.specs.Sources.{HasFewRules};
ghost use Rattle.naptr_data.specs.Zones.{Labels, IsOffer};
ghost use Rattle.dns_wire.specs.declared.content.Content.TheVariants as content;
ghost use Rattle.dns_wire.specs.declared.record.Record.{Record};
ghost use Rattle.zone_db.specs.LookUp.{AreRulesOf, ReadsAs};
ghost use Rattle.zone_build.specs.Plain.{told};
ghost use Rattle.zone_db.specs.Offering.{IsPushed, IsReadable, RdataRises};

use crate::found::Found;
use crate::laws::{found_is_offered, found_is_readable};
use crate::set::ZoneSet;
use dns_name::Name;
use dns_wire::{Content, Record};
use enum_base::MemoryFault;
use naptr_data::{Offer, Rules, SourceFault};
use std::alloc::Global;

/// What the zones offer for the name. The one fault is `Memory`.
pub(crate) fn offer_of(alloc: Global, zones: &ZoneSet, name: &Name) -> Result<Offer, SourceFault>
    ensures offered { IfOk result (IsOffer (told zones.now) name.now) }
    ensures few { IfOk result HasFewRules }
    ensures fault { IfErr result (λ fault. fault ≡ SourceFault.Memory) }
{
    found_is_readable();
    found_is_offered();
    // The type of the set keeps that its zones are a set.
    let _zones = zones.zones();
    match read_offer(alloc, zones.lookup(name, 35)) {
        Ok(offer) => Ok(offer),
        Err(_) => Err(SourceFault::Memory),
    }
}

// The offer that is read from what was found.
fn read_offer(alloc: Global, found: Found<'_>) -> Result<Offer, MemoryFault>
    requires { IsReadable found }
    ensures reads { IfOk result (ReadsAs found.entry) }
    ensures few { IfOk result HasFewRules }
{
    match found {
        Found::Outside | Found::Cut(_) => Ok(Offer::Unserved),
        Found::Alias(set) => Ok(Offer::Alias(target_of(set))),
        Found::Set(set) => Ok(Offer::Rules(rules_of(alloc, set)?)),
        Found::NoSet(_) | Found::NoName(_) => Ok(Offer::Rules(Rules::new(alloc))),
    }
}

// The target of the CNAME that is the set.
fn target_of(set: &[Record]) -> Name
    requires { (one : Record) × (target : Labels) × (set.now ≡ one ∷ []) × (one.content ≡ content.Cname target) }
    ensures { (one : Record) (target : Labels) → set.now ≡ one ∷ [] → one.content ≡ content.Cname target → result ≡ target }
{
    match &set[0].content {
        Content::Cname(target) => *target,
        _ => Name::root(),
    }
}

// The rules of a set, which stand there in the order of rules.
fn rules_of(alloc: Global, set: &[Record]) -> Result<Rules, MemoryFault>
    requires { RdataRises set.now }
    ensures rules { IfOk result (AreRulesOf set.now) }
    ensures few { IfOk result (λ rules. length rules ≤ length set.now) }
{
    let mut rules = Rules::new(alloc);
    for one in set {
        push_rule(&mut rules, &one.content)?;
    }
    Ok(rules)
}

// Appends the rule, where the content is one.
fn push_rule(rules: &mut Rules, said: &Content) -> Result<(), MemoryFault>
    ensures { OnOk result (IsPushed said.now rules.old rules.new) }
{
    match said {
        Content::Naptr(rule) => {
            // What the type keeps of a rule is known only where its fields are used.
            let (_order, _preference) = (rule.order, rule.preference);
            let (_flags, _services) = (rule.flags.as_bytes(), rule.services.as_bytes());
            let (_regexp, _replacement) = (rule.regexp.as_bytes(), rule.replacement.wire());
            rules.push(*rule)
        }
        _ => Ok(()),
    }
}

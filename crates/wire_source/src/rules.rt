//! The rules at a name among records.
ghost use Rattle.std.specs.Prelude.{◌≡◌, ◌≢◌, ◌≤◌, ◌↔◌, false, length, Contains, IsPermutation, IsTrue, IfOk, OnOk, MatchOption};
ghost use Rattle.std.specs.declared.cmp.Ordering.TheVariants.{Less, Greater};
ghost use Rattle.naptr_rule.specs.Rank.{rank_of};
ghost use Rattle.naptr_rule.specs.Rdata.{IsRule};
ghost use Rattle.naptr_rule.specs.declared.rule.Naptr.{Naptr};
ghost use Rattle.naptr_data.specs.Zones.{IsRising};
ghost use Rattle.wire_source.specs.Readings.{AreRulesAt, IsRuleAt};
ghost use Rattle.wire_source.specs.Sorting.{AreGiven, IsInOrder, AreOnce};

use dns_name::Name;
use dns_wire::{Content, Record};
use enum_base::MemoryFault;
use naptr_data::{Naptr, Rules};
use std::alloc::Global;
use std::cmp::Ordering;

/// The rules at the name, each once and in their order.
///
/// # Errors
/// Out of memory.
pub(crate) fn rules_at(alloc: Global, name: &Name, records: &[Record]) -> Result<Rules, MemoryFault>
    ensures rules { IfOk result (AreRulesAt name.now records.now) }
    ensures few { IfOk result (λ rules. length rules ≤ length records.now) }
{
    let mut given = given_rules(alloc, name, records)?;
    sort(&mut given)?;
    each_once(alloc, given.as_slice())
}

// The rules at the name, as they stand.
fn given_rules(alloc: Global, name: &Name, records: &[Record]) -> Result<Vec<Naptr>, MemoryFault>
    ensures { IfOk result (λ rules. AreGiven name.now records.now rules.items) }
{
    let mut rules = Vec::new(alloc);
    for one in records {
        if let Some(rule) = rule_in(name, one) {
            rules.push(rule)?;
        }
    }
    Ok(rules)
}

// The rule that the record is, if it stands at the name.
fn rule_in(name: &Name, one: &Record) -> Option<Naptr>
    ensures { MatchOption result ((rule : Naptr) → ¬ IsRuleAt name.now one.now rule) (IsRuleAt name.now one.now) }
{
    if !one.owner.same(name) {
        return None;
    }
    match &one.content {
        Content::Naptr(rule) => Some(*rule),
        _ => None,
    }
}

fn sort(rules: &mut Vec<Naptr>) -> Result<(), MemoryFault>
    ensures same { IsPermutation rules.old.items rules.new.items }
    ensures ordered { OnOk result (IsInOrder rules.new.items) }
{
    rules.sort_by(|one, other| one.cmp_rank(other))?;
    Ok(())
}

// Each rule once, of rules in their order.
fn each_once(alloc: Global, rules: &[Naptr]) -> Result<Rules, MemoryFault>
    requires { IsInOrder rules.now }
    ensures once { IfOk result (AreOnce rules.now) }
    ensures few { IfOk result (λ once. length once ≤ length rules.now) }
{
    let mut once = Rules::new(alloc);
    for rule in rules {
        if is_further(once.as_slice(), rule) {
            once.push(*rule)?;
        }
    }
    Ok(once)
}

// Whether the rule comes after the others, and is not among them.
fn is_further(before: &[Naptr], rule: &Naptr) -> bool
    requires rising { IsRising before.now }
    requires ordered { (one : Naptr) → Contains before.now one → rank_of one rule.now ≢ Greater }
    ensures after { IsTrue result → (one : Naptr) → Contains before.now one → rank_of one rule.now ≡ Less }
    ensures among { result ≡ false → Contains before.now rule.now }
{
    match before.last() {
        Some(last) => comes_after(last, rule),
        None => true,
    }
}

fn comes_after(one: &Naptr, other: &Naptr) -> bool
    ensures less { IsTrue result ↔ (rank_of one.now other.now ≡ Less) }
    ensures rules { IsRule one.now × IsRule other.now }
{
    one.cmp_rank(other) == Ordering::Less
}

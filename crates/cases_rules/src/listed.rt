//! A source of rules that tells no zones, keeps two names, and has trouble at listed asks.
ghost use Rattle.std.specs.Prelude.{◌≡◌, ◌≤◌, [], None, Err, IsTrue, IfOk};
ghost use Rattle.std.specs.List.{AllByRecursion};
ghost use Rattle.std.specs.declared.cmp.Ordering.TheVariants.{Less};
ghost use Rattle.enum_base.specs.Causes.{Rose, one_more};
ghost use Rattle.naptr_rule.specs.Rank.{rank_of};
ghost use Rattle.naptr_data.specs.Sources.{HasFewRules};
ghost use Rattle.naptr_data.specs.Zones.{IsRising};
ghost use Rattle.naptr_data.specs.declared.source.SourceFault.TheVariants.{Trouble};

use crate::cache::Cache;
use dns_name::{Name, Names};
use enum_base::{List, MemoryFault, Ranks};
use naptr_data::{Naptr, Offer, RuleSource, Rules, SourceFault};
use std::alloc::Global;
use std::cmp::Ordering;

// What stands at a name.
#[derive(Drop)]
pub enum Item {
    Rule(Naptr),
    Alias(Name),
    Unserved,
}

#[derive(Drop)]
pub struct Place {
    pub owner: Name,
    pub item: Item,
}

#[derive(Drop)]
pub struct Listed {
    pub places: List<Place>,
    // The numbers of the asks that fail.
    pub failing: Ranks,
    // The names that were asked for, in this order.
    pub asked: Names,
    pub asks: u64,
    pub troubles: u64,
    pub failed: bool,
    pub cache: Cache,
}

impl Listed {
    pub fn new(alloc: Global) -> Listed {
        Listed {
            places: List::new(alloc),
            failing: Ranks::new(alloc),
            asked: Names::new(alloc),
            asks: 0,
            troubles: 0,
            failed: false,
            cache: Cache::new(),
        }
    }

    // What is at a name, or trouble.
    fn answer(&mut self, alloc: Global, name: &Name) -> Result<Offer, SourceFault>
        ensures few { IfOk result HasFewRules }
        ensures asks { self.new.asks ≡ one_more self.old.asks }
        ensures later { self.old.troubles ≤ self.new.troubles }
        ensures rose { result ≡ Err Trouble → Rose self.old.troubles self.new.troubles }
        ensures failed { result ≡ Err Trouble → IsTrue self.new.failed }
        ensures cache { self.new.cache ≡ self.old.cache }
    {
        self.asks = self.asks.saturating_add(1);
        self.failed = is_listed(self.failing.as_slice(), self.asks);
        if self.asked.push(*name).is_err() {
            return Err(SourceFault::Memory);
        }
        if self.failed {
            self.troubles = self.troubles.saturating_add(1);
            return Err(SourceFault::Trouble);
        }
        match offer_at(alloc, self.places.as_slice(), name) {
            Ok(offer) => Ok(offer),
            Err(MemoryFault) => Err(SourceFault::Memory),
        }
    }
}

impl RuleSource for Listed {
    ghost state = { λ s. record {
      zones = None;
      asks = s.asks;
      troubles = s.troubles;
      failed = s.failed;
      room = 2;
      kept = s.cache.names;
      fetched = s.cache.fetched;
      lent = [];
    } };

    fn offer(&mut self, alloc: Global, name: &Name) -> Result<Offer, SourceFault> {
        match self.answer(alloc, name) {
            Ok(offer) => {
                self.cache.keep(name);
                Ok(offer)
            }
            Err(fault) => {
                self.cache.count(name);
                Err(fault)
            }
        }
    }
}

fn is_listed(failing: &[u32], ask: u64) -> bool {
    failing.iter().any(|number| u64::from(*number) == ask)
}

fn offer_at(alloc: Global, places: &[Place], name: &Name) -> Result<Offer, MemoryFault>
    ensures { IfOk result HasFewRules }
{
    let mut rules = Rules::new(alloc);
    for place in places {
        if place.owner.same(name) {
            match &place.item {
                Item::Rule(rule) => rules.push(*rule)?,
                Item::Alias(target) => return Ok(Offer::Alias(*target)),
                Item::Unserved => return Ok(Offer::Unserved),
            }
        }
    }
    Ok(offer_of(rules))
}

// Rules that do not stand in their order are none.
fn offer_of(rules: Rules) -> Offer
    ensures { HasFewRules result }
{
    if is_rising(rules.as_slice()) && rules.as_slice().len() <= 65_535 {
        Offer::Rules(rules)
    } else {
        Offer::Unserved
    }
}

fn is_rising(rules: &[Naptr]) -> bool
    ensures { IsTrue result → IsRising rules.now }
{
    match rules {
        [] => true,
        [one, rest @ ..] => are_after(one, rest) && is_rising(rest),
    }
}

fn are_after(one: &Naptr, rest: &[Naptr]) -> bool
    ensures { IsTrue result → AllByRecursion (λ next. rank_of one.now next ≡ Less) rest.now }
{
    match rest {
        [] => true,
        [next, rest @ ..] => one.cmp_rank(next) == Ordering::Less && are_after(one, rest),
    }
}

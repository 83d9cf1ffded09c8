//! Places of rules in a set.
ghost use Rattle.std.specs.Prelude.{◌≡◌, ◌⊎◌};
ghost use Rattle.std.specs.Cmp.Lexicographic.{slice_cmp};
ghost use Rattle.std.specs.Ordering.{nat_cmp};
ghost use Rattle.naptr_rule.specs.Rdata.{rdata};
ghost use Rattle.dns_wire.specs.Kinds.{kind_of, naptr};
ghost use Rattle.dns_wire.specs.Rdata.{rdata_of};
ghost use Rattle.zone_db.specs.Offering.{RdataRises};
ghost use Rattle.registry.specs.Holding.{AreRules, IsPlace};
ghost use Rattle.registry.specs.declared.place.Place.TheVariants as Place;

use dns_wire::{Content, Record};
use naptr_rule::Naptr;
use std::cmp::Ordering;

/// Where a rule is in a set, or where it would come.
#[derive(Clone, Copy, Debug, PartialEq, Eq)]
pub(crate) enum Place {
    Taken(usize),
    Free(usize),
}

impl Place {
    /// How many records come before it.
    pub(crate) fn at(self) -> usize
        ensures { (self ≡ Place.Taken result) ⊎ (self ≡ Place.Free result) }
    {
        match self {
            Place::Taken(at) | Place::Free(at) => at,
        }
    }
}

/// The place of the rule in the set, by RDATA.
pub(crate) fn place_of(set: &[Record], rule: &Naptr) -> Place
    requires rules { AreRules set.now }
    requires rising { RdataRises set.now }
    ensures { IsPlace set.now rule.now result }
{
    for at in 0..set.len() {
        match cmp_rule(rule, &set[at].content) {
            Ordering::Less => return Place::Free(at),
            Ordering::Equal => return Place::Taken(at),
            Ordering::Greater => {}
        }
    }
    Place::Free(set.len())
}

// The order of the RDATA of a rule and of the content of a rule's record.
fn cmp_rule(rule: &Naptr, said: &Content) -> Ordering
    requires { kind_of said.now ≡ naptr }
    ensures { result ≡ slice_cmp nat_cmp (rdata rule.now) (rdata_of said.now) }
{
    match said {
        Content::Naptr(other) => rule.cmp_rank(other),
        _ => Ordering::Equal,
    }
}

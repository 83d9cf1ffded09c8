//! Records that commands make.
ghost use Rattle.std.specs.Prelude.{◌≡◌, ◌<◌, ◌≤◌, ◌↔◌, ◌+◌, IsTrue, length};
ghost use Rattle.dns_name.specs.Name.{folded_labels};
ghost use Rattle.naptr_rule.specs.Rdata.{rdata};
ghost use Rattle.dns_wire.specs.Kinds.{internet, is_whole, kind_of};
ghost use Rattle.zone_build.specs.Zone.{weight};
ghost use Rattle.registry.specs.Holding.{ttl_after};

use dns_name::Name;
use dns_wire::{Content, Record};
use naptr_rule::Naptr;

/// For how many seconds a record may be kept that begins a set.
const FIRST_TTL: u32 = 3_600;

/// The record of that content at the owner, folded, with the TTL of its set.
pub(crate) fn fresh_record(owner: &Name, set: &[Record], said: Content) -> Record
    requires { IsTrue (is_whole said) }
    ensures owner { result.owner ≡ folded_labels owner.now }
    ensures kind { result.kind ≡ kind_of said }
    ensures class { result.class ≡ internet }
    ensures content { result.content ≡ said }
    ensures ttl { result.ttl ≡ ttl_after set.now }
{
    Record::new(owner.fold(), ttl_after(set), said)
}

// The TTL of a set, or the one that a set begins with.
fn ttl_after(set: &[Record]) -> u32
    ensures { result ≡ ttl_after set.now }
{
    match set {
        [one, ..] => one.ttl,
        [] => FIRST_TTL,
    }
}

/// Whether the set is still small enough with that rule.
pub(crate) fn has_room(set: &[Record], rule: &Naptr) -> bool
    requires { weight set.now ≤ 60_000 }
    ensures { IsTrue result ↔ (weight set.now + (265 + length (rdata rule.now)) ≤ 60_000) }
{
    let size = Content::Naptr(*rule).rdata_len();
    size <= 60_000 && weight_of(set) + (265 + size) <= 60_000
}

// What the set weighs.
fn weight_of(set: &[Record]) -> usize
    requires { weight set.now ≤ 60_000 }
    ensures { result ≡ weight set.now }
{
    let mut sum = 0;
    for one in set {
        sum += 265 + one.content.rdata_len();
    }
    sum
}

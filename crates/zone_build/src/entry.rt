//! Given records with their places, while a zone is built of them, and their order.
ghost use Rattle.std.specs.Prelude.{◌≡◌, IfOk, ℕ, ◌<◌, slice_index_or};
ghost use Rattle.std.specs.Ordering.{nat_cmp};
ghost use Rattle.std.specs.Cmp.Lexicographic.{slice_cmp};
ghost use Rattle.enum_base.specs.Folding.{folded};
ghost use Rattle.naptr_rule.specs.Rdata.{rdata};
ghost use Rattle.dns_wire.specs.Kinds.{kind_of, naptr};
ghost use Rattle.dns_wire.specs.Rdata.{rdata_of};
ghost use Rattle.zone_build.specs.Building.{front_of, compared_bytes};

use crate::order::cmp_owners;
use dns_wire::{Content, Record};
use enum_base::{Bytes, MemoryFault, fold_byte};
use naptr_data::Naptr;
use std::alloc::Global;
use std::cmp::Ordering;
use std::marker::Model;

/// By the owner, by owner and kind, or by owner, kind and RDATA.
#[derive(Clone, Copy, Debug, PartialEq, Eq)]
pub(crate) enum Key {
    Owner,
    Set,
    Whole,
}

/// A given record, its place in the list, and what it is compared by.
#[derive(Drop)]
pub(crate) struct Entry<'a> {
    place: usize,
    given: &'a Record,
    kind: u16,
    ttl: u32,
    // The number that the folded owner begins with.
    front: u128,
    // The RDATA, unless it is that of a rule.
    rdata: Bytes,
}

impl<'a> Model for Entry<'a> {
    ghost use Rattle.std.specs.Prelude.{◌≡◌};
    ghost use Rattle.zone_build.specs.Building.{AreKeys, Given};

    ghost Value = { Given };

    ghost view = { λ e. record { place = e.place; given = e.given.now } };

    ghost invariant = { λ e. AreKeys e.given.now e.kind e.ttl e.front e.rdata };
}

impl<'a> Entry<'a> {
    ghost use Rattle.zone_build.specs.Building.{key_order, entry_order, AreAlike};
    ghost use Rattle.zone_build.specs.Zone.{IsPlain, owner_order, order_of};
    ghost use Rattle.std.specs.Ordering.{ordering_then};
    ghost use Rattle.dns_wire.specs.Rdata.{rdata_of};
    ghost use Rattle.std.specs.declared.cmp.Ordering.TheVariants.{Equal};

    /// The record at a place of the list.
    pub(crate) fn new(
        alloc: Global,
        place: usize,
        given: &'a Record,
    ) -> Result<Entry<'a>, MemoryFault>
        requires { IsPlain given.now }
        ensures { IfOk result (λ e. e ≡ record { place = place; given = given.now }) }
    {
        Ok(Entry {
            place,
            given,
            kind: given.kind,
            ttl: given.ttl,
            front: front_of(given.owner.wire()),
            rdata: compared_bytes(alloc, &given.content)?,
        })
    }

    pub(crate) fn place(&self) -> usize
        ensures { result ≡ self.now.place }
    {
        self.place
    }

    pub(crate) fn record(&self) -> &'a Record
        ensures { result.now ≡ self.now.given }
    {
        self.given
    }

    pub(crate) fn kind(&self) -> u16
        ensures { result ≡ self.now.given.kind }
    {
        self.kind
    }

    pub(crate) fn ttl(&self) -> u32
        ensures { result ≡ self.now.given.ttl }
    {
        self.ttl
    }

    /// The order of the records by that key.
    pub(crate) fn cmp_by(&self, other: &Entry<'_>, key: Key) -> Ordering
        ensures order { result ≡ key_order key self.now.given other.now.given }
        ensures alike { result ≡ Equal → AreAlike key self.now.given other.now.given }
    {
        // What the type keeps of an entry is known only where a field is used.
        let (_self, _other) = (&self.given, &other.given);
        match key {
            Key::Owner => self.cmp_owner(other),
            Key::Set => self.cmp_set(other),
            Key::Whole => self.cmp_record(other),
        }
    }

    // The order of the owners. Most differ in the number that they begin with.
    fn cmp_owner(&self, other: &Entry<'_>) -> Ordering
        ensures { result ≡ owner_order self.now.given other.now.given }
    {
        let (front, other_front) = (self.front, other.front);
        match front.cmp(&other_front) {
            Ordering::Equal => cmp_owners(&self.given.owner, &other.given.owner),
            apart => apart,
        }
    }

    // The order by owner and kind.
    fn cmp_set(&self, other: &Entry<'_>) -> Ordering
        ensures { result ≡ ordering_then (owner_order self.now.given other.now.given) (nat_cmp self.now.given.kind other.now.given.kind) }
    {
        match self.cmp_owner(other) {
            Ordering::Equal => self.cmp_kind(other),
            apart => apart,
        }
    }

    // The order by owner, kind and RDATA.
    fn cmp_record(&self, other: &Entry<'_>) -> Ordering
        ensures { result ≡ order_of self.now.given other.now.given }
    {
        match self.cmp_owner(other) {
            Ordering::Equal => self.cmp_data(other),
            apart => apart,
        }
    }

    // The order by kind and RDATA.
    fn cmp_data(&self, other: &Entry<'_>) -> Ordering
        ensures { result ≡ ordering_then (nat_cmp self.now.given.kind other.now.given.kind)
            (slice_cmp nat_cmp (rdata_of self.now.given.content) (rdata_of other.now.given.content)) }
    {
        match self.cmp_kind(other) {
            Ordering::Equal => self.cmp_rdata(other),
            apart => apart,
        }
    }

    fn cmp_kind(&self, other: &Entry<'_>) -> Ordering
        ensures { result ≡ nat_cmp self.now.given.kind other.now.given.kind }
    {
        let (kind, other_kind) = (self.kind, other.kind);
        kind.cmp(&other_kind)
    }

    /// The whole order, and of repeats that of their places.
    pub(crate) fn cmp_whole(&self, other: &Entry<'_>) -> Ordering
        ensures { result ≡ entry_order self.now other.now }
    {
        let (place, other_place) = (self.place, other.place);
        self.cmp_record(other).then(place.cmp(&other_place))
    }

    // The order of the RDATA of records of one kind.
    fn cmp_rdata(&self, other: &Entry<'_>) -> Ordering
        requires { self.now.given.kind ≡ other.now.given.kind }
        ensures { result ≡ slice_cmp nat_cmp (rdata_of self.now.given.content) (rdata_of other.now.given.content) }
    {
        let (rdata, other_rdata) = (self.rdata.as_slice(), other.rdata.as_slice());
        match &self.given.content {
            Content::Naptr(rule) => cmp_rule(rule, &other.given.content),
            _ => rdata.cmp(other_rdata),
        }
    }
}

/// The number that the first sixteen bytes make, folded, the first of them the greatest; a byte that is missing counts
/// as zero.
pub(crate) fn front_of(text: &[u8]) -> u128
    ensures value { result ≡ front_of 16 (folded text.now) }
    ensures bytes { (at : ℕ) → at < 16 → slice_index_or (folded text.now) at 0 < 256 }
{
    let mut front: u128 = 0;
    for at in 0..16 {
        front = 256 * front + u128::from(byte_at(text, at));
    }
    front
}

// The folded byte at a place, or zero after the last.
fn byte_at(text: &[u8], at: usize) -> u8
    ensures { result ≡ slice_index_or (folded text.now) at 0 }
{
    if at < text.len() {
        fold_byte(text[at])
    } else {
        0
    }
}

/// The RDATA of content other than a rule.
pub(crate) fn compared_bytes(alloc: Global, said: &Content) -> Result<Bytes, MemoryFault>
    ensures { IfOk result (λ bytes. bytes ≡ compared_bytes said.now) }
{
    match said {
        Content::Naptr(_) => Ok(Bytes::new(alloc)),
        _ => said.rdata(alloc),
    }
}

/// The order of the RDATA of a rule and of content of its kind.
pub(crate) fn cmp_rule(rule: &Naptr, said: &Content) -> Ordering
    requires { kind_of said.now ≡ naptr }
    ensures { result ≡ slice_cmp nat_cmp (rdata rule.now) (rdata_of said.now) }
{
    match said {
        Content::Naptr(other) => rule.cmp_rank(other),
        _ => Ordering::Equal,
    }
}

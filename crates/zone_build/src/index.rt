//! An index of records by name.
ghost use Rattle.std.specs.Prelude.{◌≡◌, ◌↔◌, ◌<◌, [], length, IsTrue, IfSome, IfNone, OnOk, Contains, ◌^◌, take};
ghost use Rattle.enum_base.specs.Folding.{folded};
ghost use Rattle.zone_build.specs.declared.index.Places.{Places};
ghost use Rattle.zone_build.specs.Indexing.{IsInserted, AllPlaces, Meets, NoneMeets, candidates, key_of, owner_at, joined, mixed, number_after};

use dns_name::Name;
use dns_wire::Record;
use enum_base::{MemoryFault, fold_byte};
use indexmap::IndexMap;
use std::alloc::Global;
use std::hash::{DefaultHasher, Hasher};
use std::marker::Model;

/// The places of the records of one owner, but for the SOA: from the first to before the end.
#[derive(Clone, Copy, Debug, PartialEq, Eq)]
pub(crate) struct Places {
    pub(crate) first: usize,
    pub(crate) end: usize,
}

/// The records at a name, or some that are at or below it.
#[derive(Clone, Copy, Debug, PartialEq, Eq)]
pub(crate) enum Sought {
    At,
    Below,
}

/// Places of records by the keys of names. Where two names have one key, the places of the first are in a list.
#[derive(Drop)]
pub(crate) struct Index {
    seed: u64,
    map: IndexMap<u64, Places>,
    rest: Vec<Places>,
}

impl Model for Index {
    ghost use Rattle.zone_build.specs.Indexing.{Indexed};

    ghost Value = { Indexed };

    ghost view = { λ i. record { seed = i.seed; entries = i.map.entries; rest = i.rest.items } };
}

impl Index {
    /// An empty index under keys of that seed.
    pub(crate) fn new(alloc: Global, seed: u64) -> Index
        ensures { result ≡ record { seed = seed; entries = []; rest = [] } }
    {
        Index {
            seed,
            map: IndexMap::new(alloc),
            rest: Vec::new(alloc),
        }
    }

    /// Adds the places under that key.
    pub(crate) fn insert(&mut self, key: u64, places: Places) -> Result<(), MemoryFault>
        ensures { OnOk result (IsInserted self.old self.new key places) }
    {
        match self.map.insert(key, places)? {
            Some(before) => self.rest.push(before)?,
            None => {}
        }
        Ok(())
    }

    /// The key of a name.
    pub(crate) fn key_of(&self, name: &Name) -> u64
        ensures { result ≡ key_of self.now.seed name.now }
    {
        key_of(self.seed, name)
    }

    /// The places of the records at that name, or of some at or below it.
    pub(crate) fn find(&self, records: &[Record], name: &Name, sought: Sought) -> Option<Places>
        requires { AllPlaces records.now self.now }
        ensures there { IfSome result (λ one. Contains (candidates self.now (key_of self.now.seed name.now)) one) }
        ensures meets { IfSome result (λ one. Meets sought (owner_at records.now one.first) name.now) }
        ensures none { IfNone result (NoneMeets sought records.now name.now (candidates self.now (key_of self.now.seed name.now))) }
    {
        self.find_under(self.key_of(name), records, name, sought)
    }

    /// The places under that key of the records at the name, or of some at or below it.
    pub(crate) fn find_under(
        &self,
        key: u64,
        records: &[Record],
        name: &Name,
        sought: Sought,
    ) -> Option<Places>
        requires { AllPlaces records.now self.now }
        ensures there { IfSome result (λ one. Contains (candidates self.now key) one) }
        ensures meets { IfSome result (λ one. Meets sought (owner_at records.now one.first) name.now) }
        ensures none { IfNone result (NoneMeets sought records.now name.now (candidates self.now key)) }
    {
        if let Some(one) = self.map.get(&key) {
            if meets(records, one, name, sought) {
                return Some(*one);
            }
        }
        first_meeting(self.rest.as_slice(), records, name, sought)
    }
}

// The first places in the list at which an owner is sought.
fn first_meeting(list: &[Places], records: &[Record], name: &Name, sought: Sought) -> Option<Places>
    requires { (one : Places) → Contains list.now one → one.first < length records.now }
    ensures there { IfSome result (λ one. Contains list.now one) }
    ensures meets { IfSome result (λ one. Meets sought (owner_at records.now one.first) name.now) }
    ensures none { IfNone result (NoneMeets sought records.now name.now list.now) }
{
    for one in list {
        if meets(records, one, name, sought) {
            return Some(*one);
        }
    }
    None
}

// Whether the owner at the places is sought.
fn meets(records: &[Record], places: &Places, name: &Name, sought: Sought) -> bool
    requires { places.now.first < length records.now }
    ensures { IsTrue result ↔ Meets sought (owner_at records.now places.now.first) name.now }
{
    let owner = owner_at(records, places.first);
    match sought {
        Sought::At => owner.same(name),
        Sought::Below => owner.is_below(name),
    }
}

/// The owner of the record at a place.
pub(crate) fn owner_at(records: &[Record], place: usize) -> &Name
    requires { place < length records.now }
    ensures { result.now ≡ owner_at records.now place }
{
    &records[place].owner
}

/// The seed of the keys of these records: a number of 60 bits that all owners decide. No answer depends on it.
pub(crate) fn seed_of(records: &[Record]) -> u64
    ensures { result < 2 ^ 60 }
{
    let mut hasher = DefaultHasher::new();
    for one in records {
        hasher.write(one.owner.wire());
    }
    hasher.finish() >> 4
}

/// The key of a name, compared folded: the value at the seed of a polynomial modulo 2^61 - 1 whose coefficients are
/// the numbers that seven bytes of the wire form make each. It is reduced in part, and no sum or product passes its
/// type.
pub(crate) fn key_of(seed: u64, name: &Name) -> u64
    ensures { result ≡ key_of seed name.now }
{
    let wire = name.wire();
    let mut state = 0;
    for turn in 0..wire.len() / 7 + 1 {
        state = mixed(seed, state, number_of(&wire[7 * turn..]));
    }
    state
}

// The number that the first seven bytes make, folded.
fn number_of(rest: &[u8]) -> u64
    ensures { result ≡ number_after 0 (folded (take 7 rest.now)) }
{
    let mut number = 0;
    for byte in first_seven(rest) {
        number = joined(number, fold_byte(*byte));
    }
    number
}

// The first seven bytes, or all where there are fewer.
fn first_seven(rest: &[u8]) -> &[u8]
    ensures { result.now ≡ take 7 rest.now }
{
    if rest.len() > 7 { &rest[..7] } else { rest }
}

// The number with one more byte.
fn joined(number: u64, byte: u8) -> u64
    ensures { result ≡ joined number byte }
{
    number.wrapping_mul(256).wrapping_add(u64::from(byte))
}

// The state after one more number.
fn mixed(seed: u64, state: u64, number: u64) -> u64
    ensures { result ≡ mixed seed state number }
{
    let sum = state.wrapping_add(number);
    let product = u128::from(sum).wrapping_mul(u128::from(seed));
    let low = (product % 0x2000_0000_0000_0000) as u64;
    let high = ((product >> 61) % 0x1_0000_0000_0000_0000) as u64;
    low.wrapping_add(high)
}

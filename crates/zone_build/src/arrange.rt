//! The kept records, in the memory of the given ones.
ghost use Rattle.std.specs.Prelude.{◌≡◌, ◌<◌, length, take, IfOk};
ghost use Rattle.std.specs.List.{swap, range_with_len};
ghost use Rattle.zone_build.specs.Building.{AreApart, AreSettled, settled};

use crate::keep::Keep;
use dns_wire::Record;
use enum_base::MemoryFault;
use std::alloc::Global;

/// Moves the records that are kept to the front, in this order, folds their owners, and drops the others.
pub(crate) fn arranged(
    alloc: Global,
    mut records: Vec<Record>,
    keeps: &[Keep],
) -> Result<Vec<Record>, MemoryFault>
    requires { AreApart (length records.items) keeps.now }
    ensures { IfOk result (λ kept. AreSettled records.items keeps.now kept.items) }
{
    let mut who = places(alloc, records.len())?;
    let mut at = places(alloc, records.len())?;
    arrange(
        records.as_mut_slice(),
        keeps,
        who.as_mut_slice(),
        at.as_mut_slice(),
    );
    records.truncate(keeps.len());
    Ok(records)
}

// Moves the records to the front. `who` has the place at which the record that stands there now was given, and `at` the
// place at which the one that was given there stands now.
//
// Of a b c d the three d, a, b are kept, in this order:
//
//     a b c d    who 0 1 2 3    at 0 1 2 3
//     d b c a    who 3 1 2 0    at 3 1 2 0    d was given at 3, and comes to 0
//     d a c b    who 3 0 2 1    at 1 3 2 0    a was given at 0, stands at 3, and comes to 1
//     d a b c    who 3 0 1 2    at 1 2 3 0    b was given at 1, stands at 3, and comes to 2
fn arrange(records: &mut [Record], keeps: &[Keep], who: &mut [usize], at: &mut [usize])
    requires apart { AreApart (length records.old) keeps.now }
    requires who { who.old ≡ range_with_len 0 (length records.old) }
    requires at { at.old ≡ range_with_len 0 (length records.old) }
    ensures { AreSettled records.old keeps.now (take (length keeps.now) records.new) }
{
    for next in 0..keeps.len() {
        let keep = keeps[next];
        let from = at[keep.place];
        let other = who[next];
        change(records, next, from);
        settle(&mut records[next], keep.ttl);
        who[from] = other;
        who[next] = keep.place;
        at[other] = from;
        at[keep.place] = next;
    }
}

// The numbers below that one.
fn places(alloc: Global, size: usize) -> Result<Vec<usize>, MemoryFault>
    ensures { IfOk result (λ places. places.items ≡ range_with_len 0 size) }
{
    let mut places = Vec::with_capacity(alloc, size)?;
    for place in 0..size {
        places.push(place)?;
    }
    Ok(places)
}

// Changes the places of two records.
fn change(records: &mut [Record], one: usize, other: usize)
    requires one { one < length records.old }
    requires other { other < length records.old }
    ensures { records.new ≡ swap records.old one other }
{
    if one != other {
        records.swap(one, other);
    }
}

// Folds the owner, and sets the TTL.
fn settle(one: &mut Record, ttl: u32)
    ensures { one.new ≡ settled ttl one.old }
{
    one.owner = one.owner.fold();
    one.ttl = ttl;
}

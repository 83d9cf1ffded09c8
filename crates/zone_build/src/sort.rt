//! Given records as entries in order, and runs of entries that are alike.
ghost use Rattle.std.specs.Prelude.{◌≡◌, Contains, IsPermutation, IfOk, OnOk, ◌<◌, length, take, drop};
ghost use Rattle.dns_wire.specs.declared.record.Record.{Record};
ghost use Rattle.zone_build.specs.Zone.{IsPlain};
ghost use Rattle.zone_build.specs.Building.{IsOrdered, IsStable, AreGivens, givens_from, IsRun};

use crate::entry::{Entry, Key};
use dns_wire::Record;
use enum_base::MemoryFault;
use std::alloc::Global;
use std::cmp::Ordering;

/// The records as entries, in order, repeats in the order of their places.
pub(crate) fn sorted_entries(
    alloc: Global,
    records: &[Record],
) -> Result<Vec<Entry<'_>>, MemoryFault>
    requires { (one : Record) → Contains records.now one → IsPlain one }
    ensures givens { IfOk result (λ entries. AreGivens records.now entries.items) }
    ensures ordered { IfOk result (λ entries. IsOrdered entries.items) }
    ensures stable { IfOk result (λ entries. IsStable entries.items) }
{
    let mut entries = entries_of(alloc, records)?;
    sort(&mut entries)?;
    Ok(entries)
}

// The records as entries, as they stand.
fn entries_of(alloc: Global, records: &[Record]) -> Result<Vec<Entry<'_>>, MemoryFault>
    requires { (one : Record) → Contains records.now one → IsPlain one }
    ensures { IfOk result (λ entries. entries.items ≡ givens_from 0 records.now) }
{
    let mut entries = Vec::with_capacity(alloc, records.len())?;
    for (place, given) in records.iter().enumerate() {
        entries.push(Entry::new(alloc, place, given)?)?;
    }
    Ok(entries)
}

fn sort(entries: &mut Vec<Entry<'_>>) -> Result<(), MemoryFault>
    ensures same { IsPermutation entries.old.items entries.new.items }
    ensures ordered { OnOk result (IsOrdered entries.new.items) }
    ensures stable { OnOk result (IsStable entries.new.items) }
{
    entries.sort_by(|one, other| one.cmp_whole(other))?;
    Ok(())
}

/// How many entries in front are alike by that key.
pub(crate) fn run_len(rest: &[Entry<'_>], key: Key) -> usize
    requires some { 0 < length rest.now }
    requires ordered { IsOrdered rest.now }
    ensures { IsRun key rest.now result }
{
    let head = &rest[0];
    for at in 1..rest.len() {
        match head.cmp_by(&rest[at], key) {
            Ordering::Equal => {}
            _ => return at,
        }
    }
    rest.len()
}

/// The entries from that place on that are alike by that key.
pub(crate) fn run_at<'a, 'b>(sorted: &'a [Entry<'b>], at: usize, key: Key) -> &'a [Entry<'b>]
    requires within { at < length sorted.now }
    requires ordered { IsOrdered sorted.now }
    ensures run { IsRun key (drop at sorted.now) (length result.now) }
    ensures part { result.now ≡ take (length result.now) (drop at sorted.now) }
{
    let rest = &sorted[at..];
    &rest[..run_len(rest, key)]
}

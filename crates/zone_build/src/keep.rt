//! Which given records are kept.
ghost use Rattle.std.specs.Prelude.{◌≡◌, ◌==◌, ◌<◌, length, IfOk, OnOk};
ghost use Rattle.dns_wire.specs.Kinds.{soa};
ghost use Rattle.zone_build.specs.Building.{IsOrdered, IsStable, IsLeast, IsMergedSet, AreMergedSets, IsKeptList};

use crate::entry::{Entry, Key};
use crate::sort::run_at;
use enum_base::MemoryFault;
use std::alloc::Global;

/// That the record at a place is kept, with this TTL.
#[derive(Clone, Copy, Debug, PartialEq, Eq)]
pub(crate) struct Keep {
    pub(crate) place: usize,
    pub(crate) ttl: u32,
}

/// What is kept: the SOA, and then the others.
pub(crate) fn kept_of(alloc: Global, sorted: &[Entry<'_>]) -> Result<Vec<Keep>, MemoryFault>
    requires ordered { IsOrdered sorted.now }
    requires stable { IsStable sorted.now }
    ensures { IfOk result (λ keeps. IsKeptList sorted.now keeps.items) }
{
    let mut keeps = Vec::with_capacity(alloc, sorted.len())?;
    push_sets(sorted, true, &mut keeps)?;
    push_sets(sorted, false, &mut keeps)?;
    Ok(keeps)
}

// Appends what is kept of the SOA, or of all but the SOA.
fn push_sets(sorted: &[Entry<'_>], as_soa: bool, out: &mut Vec<Keep>) -> Result<(), MemoryFault>
    requires ordered { IsOrdered sorted.now }
    requires stable { IsStable sorted.now }
    ensures { OnOk result (AreMergedSets as_soa sorted.now out.old.items out.new.items) }
{
    let mut at = 0;
    while at < sorted.len() {
        let set = run_at(sorted, at, Key::Set);
        if is_soa(&set[0]) == as_soa {
            push_set(set, out)?;
        }
        at += set.len();
    }
    Ok(())
}

// Appends what is kept of one set: of repeats the first, and all with the least TTL.
fn push_set(set: &[Entry<'_>], out: &mut Vec<Keep>) -> Result<(), MemoryFault>
    requires some { 0 < length set.now }
    requires ordered { IsOrdered set.now }
    requires stable { IsStable set.now }
    ensures { OnOk result (IsMergedSet set.now out.old.items out.new.items) }
{
    let ttl = least_ttl(set);
    let mut at = 0;
    while at < set.len() {
        let repeats = run_at(set, at, Key::Whole);
        out.push(Keep {
            place: repeats[0].place(),
            ttl,
        })?;
        at += repeats.len();
    }
    Ok(())
}

// Whether the record is an SOA.
fn is_soa(entry: &Entry<'_>) -> bool
    ensures { result ≡ (entry.now.given.kind == soa) }
{
    entry.kind() == 6
}

// The least TTL of the entries.
fn least_ttl(set: &[Entry<'_>]) -> u32
    requires { 0 < length set.now }
    ensures { IsLeast set.now result }
{
    let mut least = set[0].ttl();
    for entry in set {
        let ttl = entry.ttl();
        if ttl < least {
            least = ttl;
        }
    }
    least
}

//! Sets with a record more or less.
ghost use Rattle.std.specs.Prelude.{◌≡◌, ◌<◌, ◌≤◌, ◌+◌, ◌∷◌, ◌++◌, drop, length, take, IfOk, OnOk};

use dns_wire::{Record, Records};
use enum_base::MemoryFault;
use std::alloc::Global;

/// A copy of the set with one record more, at that place.
pub(crate) fn with_record(
    alloc: Global,
    set: &[Record],
    at: usize,
    one: Record,
) -> Result<Records, MemoryFault>
    requires { at ≤ length set.now }
    ensures { IfOk result (λ more. more ≡ take at set.now ++ one ∷ drop at set.now) }
{
    let mut more = Records::new(alloc);
    copy_all(alloc, &set[..at], &mut more)?;
    more.push(one)?;
    copy_all(alloc, &set[at..], &mut more)?;
    Ok(more)
}

/// A copy of the set without the record at that place.
pub(crate) fn without_record(
    alloc: Global,
    set: &[Record],
    at: usize,
) -> Result<Records, MemoryFault>
    requires { at < length set.now }
    ensures { IfOk result (λ less. less ≡ take at set.now ++ drop (at + 1) set.now) }
{
    let mut less = Records::new(alloc);
    copy_all(alloc, &set[..at], &mut less)?;
    copy_all(alloc, &set[at + 1..], &mut less)?;
    Ok(less)
}

/// Appends copies of the records.
pub(crate) fn copy_all(alloc: Global, from: &[Record], to: &mut Records) -> Result<(), MemoryFault>
    ensures { OnOk result (to.new ≡ to.old ++ from.now) }
{
    for one in from {
        to.push(one.copy(alloc)?)?;
    }
    Ok(())
}

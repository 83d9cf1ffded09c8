//! Copies of records.
ghost use Rattle.std.specs.Prelude.{◌≡◌, ◌≤◌, ◌+◌, ◌++◌, length, IfOk, OnOk};
ghost use Rattle.dns_wire.specs.Encoding.{record_wire};
ghost use Rattle.dns_wire.specs.Rdata.{rdata_of};
ghost use Rattle.dns_wire.specs.declared.content.Content.TheVariants as content;
ghost use Rattle.zone_build.specs.Zone.{weight};
ghost use Rattle.zone_db.specs.Replies.{IsNegative, owned_by};
ghost use Rattle.responder.specs.Ready.{TellsSoa};
ghost use Rattle.responder.specs.Sizes.{size};

use dns_name::Name;
use dns_wire::{Content, Record, Records};
use enum_base::MemoryFault;
use std::alloc::Global;

/// Records, told of a name.
pub(crate) fn owned_by(
    alloc: Global,
    name: &Name,
    records: &[Record],
) -> Result<Records, MemoryFault>
    ensures owned { IfOk result (λ owned. owned ≡ owned_by name.now records.now) }
    ensures size { IfOk result (λ owned. size owned ≤ weight records.now) }
{
    let _wire = name.wire();
    owned_list(alloc, name, records)
}

fn owned_list(alloc: Global, name: &Name, records: &[Record]) -> Result<Records, MemoryFault>
    ensures { IfOk result (λ owned. owned ≡ owned_by name.now records.now) }
{
    let mut owned = Records::new(alloc);
    for one in records {
        owned.push(owned_one(alloc, name, one)?)?;
    }
    Ok(owned)
}

// A record, told of a name.
fn owned_one(alloc: Global, name: &Name, one: &Record) -> Result<Record, MemoryFault>
    ensures { IfOk result (λ owned. owned ≡ record one.now { owner = name.now }) }
{
    let mut copy = one.copy(alloc)?;
    copy.owner = *name;
    Ok(copy)
}

/// The records.
pub(crate) fn copies(alloc: Global, records: &[Record]) -> Result<Records, MemoryFault>
    ensures copies { IfOk result (λ copies. copies ≡ records.now) }
    ensures size { IfOk result (λ copies. size copies ≤ weight records.now) }
{
    let mut copies = Records::new(alloc);
    for one in records {
        copies.push(copy_of(alloc, one)?)?;
    }
    Ok(copies)
}

// A record, which has no more bytes than it weighs.
fn copy_of(alloc: Global, one: &Record) -> Result<Record, MemoryFault>
    ensures copy { IfOk result (λ copy. copy ≡ one.now) }
    ensures size { length (record_wire one.now) ≤ 265 + length (rdata_of one.now.content) }
{
    let _wire = one.owner.wire();
    one.copy(alloc)
}

/// Puts the records after the others.
pub(crate) fn push_copies(
    alloc: Global,
    records: &[Record],
    out: &mut Records,
) -> Result<(), MemoryFault>
    ensures { OnOk result (out.new ≡ out.old ++ records.now) }
{
    for one in records {
        out.push(one.copy(alloc)?)?;
    }
    Ok(())
}

/// The SOA, with the time for which it may be kept that something is not there.
pub(crate) fn negative_soa(alloc: Global, soa: &Record) -> Result<Record, MemoryFault>
    requires { TellsSoa soa.now }
    ensures told { IfOk result (IsNegative soa.now) }
    ensures size { IfOk result (λ told. length (record_wire told) ≤ 60_000) }
{
    let mut told = soa.copy(alloc)?;
    let _wire = soa.owner.wire();
    if let Content::Soa(fields) = &soa.content {
        let _mname = fields.mname.wire();
        let _rname = fields.rname.wire();
        told.ttl = soa.ttl.min(fields.minimum);
    }
    Ok(told)
}

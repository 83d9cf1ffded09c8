//! The addresses of servers below a cut (RFC 1034, 4.2.1).
ghost use Rattle.std.specs.Prelude.{◌≡◌, IfOk, OnOk};
ghost use Rattle.std.specs.List.{AllByRecursion};
ghost use Rattle.zone_db.specs.Replies.{IsGlue};
ghost use Rattle.responder.specs.Drafting.{AddsAddresses, AddsGlue};
ghost use Rattle.responder.specs.Ready.{TellsServer};

use crate::copies::push_copies;
use dns_name::Name;
use dns_wire::kinds::{A, AAAA};
use dns_wire::{Content, Record, Records};
use enum_base::MemoryFault;
use std::alloc::Global;
use zone_db::Zone;

/// The addresses of the servers of a cut, in their order.
pub(crate) fn glue_of(
    alloc: Global,
    zone: &Zone,
    servers: &[Record],
) -> Result<Records, MemoryFault>
    requires { AllByRecursion TellsServer servers.now }
    ensures { IfOk result (IsGlue zone.now servers.now) }
{
    let mut glue = Records::new(alloc);
    for one in servers {
        push_glue(alloc, zone, one, &mut glue)?;
    }
    Ok(glue)
}

// Puts the addresses of the server that the record tells after the others.
fn push_glue(
    alloc: Global,
    zone: &Zone,
    one: &Record,
    glue: &mut Records,
) -> Result<(), MemoryFault>
    requires { TellsServer one.now }
    ensures { OnOk result (AddsGlue zone.now one.now glue.old glue.new) }
{
    if let Content::Ns(server) = &one.content {
        return push_addresses(alloc, zone, &one.owner, server, glue);
    }
    Ok(())
}

// Puts the addresses of the server after the others, if it is at or below the cut.
fn push_addresses(
    alloc: Global,
    zone: &Zone,
    cut: &Name,
    server: &Name,
    glue: &mut Records,
) -> Result<(), MemoryFault>
    ensures { OnOk result (AddsAddresses zone.now cut.now server.now glue.old glue.new) }
{
    if !server.is_below(cut) {
        return Ok(());
    }
    push_copies(alloc, zone.set(server, A), glue)?;
    push_copies(alloc, zone.set(server, AAAA), glue)
}

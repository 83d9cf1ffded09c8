//! The zones of the files that the words name.
ghost use Rattle.std.specs.Prelude.{Contains, IsErrOf};
ghost use Rattle.dns_wire.specs.declared.record.Record.{Record};
ghost use Rattle.request_words.specs.Words.{texts_of};
ghost use Rattle.zone_build.specs.Zone.{IsPlain};
ghost use Rattle.enum_top.specs.Handling.{ReadsShelf};
ghost use Rattle.enum_top.specs.Running.{DoesAlone, DoesOnShelf, zones_after};
ghost use Rattle.enum_top.specs.ZoneFiles.{Adds, Builds, ZoneAt, ZonesOf};

use crate::cause::Cause;
use crate::objects::Object;
use crate::why::Why;
use crate::zone_file::read_text;
use dns_wire::Records;
use enum_base::Shelf;
use std::alloc::Global;
use zone_db::{AddFault, Zone, ZoneFault, ZoneSet};

/// Reads the files whose names are the words at these places, one after another. The first that is not there, whose
/// text breaks, whose records make no zone, or whose zone does not go to those before it stops it.
pub(crate) fn read_zones<S: Shelf>(
    alloc: Global,
    words: &[String],
    places: &[usize],
    shelf: &mut S,
) -> Result<ZoneSet, Why>
    ensures does { DoesOnShelf (ZonesOf (S.state shelf.old).files (texts_of words.now) places.now) result }
    ensures shelf { ReadsShelf (S.state shelf.old) (S.state shelf.new) (IsErrOf result (Why.Outside Object.Shelf)) }
{
    let mut zones = ZoneSet::new(alloc);
    for place in places {
        let zone = read_zone(alloc, words, *place, shelf)?;
        add_zone(*place, zone, &mut zones)?;
    }
    Ok(zones)
}

// The zone of one file.
fn read_zone<S: Shelf>(
    alloc: Global,
    words: &[String],
    place: usize,
    shelf: &mut S,
) -> Result<Zone, Why>
    ensures does { DoesOnShelf (ZoneAt (S.state shelf.old).files (texts_of words.now) place) result }
    ensures shelf { ReadsShelf (S.state shelf.old) (S.state shelf.new) (IsErrOf result (Why.Outside Object.Shelf)) }
{
    let records = read_text(alloc, words, place, shelf)?;
    build_zone(alloc, place, records)
}

// The zone of the records of one file.
fn build_zone(alloc: Global, place: usize, records: Records) -> Result<Zone, Why>
    requires plain { (one : Record) → Contains records one → IsPlain one }
    ensures { DoesAlone (Builds place records) result }
{
    match Zone::build(alloc, records) {
        Ok(zone) => Ok(zone),
        Err(ZoneFault::Memory) => Err(Why::Memory),
        Err(fault) => Err(Why::Judged(Cause::Zone { file: place, fault })),
    }
}

// The zone of one file goes after the others.
fn add_zone(place: usize, zone: Zone, zones: &mut ZoneSet) -> Result<(), Why>
    ensures { DoesAlone (λ done. Adds place zones.old zone (zones_after zones.new done)) result }
{
    match zones.add(zone) {
        Ok(()) => Ok(()),
        Err((AddFault::Memory, _)) => Err(Why::Memory),
        Err((fault, _)) => Err(Why::Judged(Cause::Set { file: place, fault })),
    }
}

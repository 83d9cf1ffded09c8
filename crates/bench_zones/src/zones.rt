//! Zones of files.

use cases_records::read_records;
use cases_text::text_of;
use dns_name::Name;
use enum_base::MemoryFault;
use std::alloc::Global;
use zone_db::{Zone, ZoneSet};

// How many bytes are fed at once.
const PIECE: usize = 4096;

/// Adds the zone of a text: how many records the zones hold, or the fault.
pub fn added(alloc: Global, set: &mut ZoneSet, text: &str) -> Result<String, MemoryFault> {
    let records = match read_records(alloc, Name::root(), text.as_bytes(), PIECE) {
        Ok(records) => records,
        Err(fault) => return text_of(alloc, fault.words().as_slice()),
    };
    let zone = match Zone::build(alloc, records) {
        Ok(zone) => zone,
        Err(fault) => return text_of(alloc, fault.words().as_slice()),
    };
    match set.add(zone) {
        Ok(()) => Ok(format!(in alloc; "{} records", count(set))?),
        Err((fault, _zone)) => text_of(alloc, fault.words().as_slice()),
    }
}

fn count(set: &ZoneSet) -> usize {
    let mut count = 0usize;
    for zone in set.zones() {
        count = count.saturating_add(zone.records().len());
    }
    count
}

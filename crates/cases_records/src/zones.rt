//! Zones of texts, and calls of a link that fail.

use crate::reading::read_records;
use cases_text::{bytes_of, line_of, number_of};
use dns_name::Name;
use enum_base::{Bytes, MemoryFault, Ranks};
use std::alloc::Global;
use zone_db::{Zone, ZoneSet};

// How many bytes of a zone text are read at once.
const PIECE: usize = 4096;

/// The zones so far, and their texts, of which they are made again.
#[derive(Drop)]
pub struct ZoneTexts {
    texts: Vec<Bytes>,
    zones: ZoneSet,
}

impl ZoneTexts {
    pub fn new(alloc: Global) -> ZoneTexts {
        ZoneTexts {
            texts: Vec::new(alloc),
            zones: ZoneSet::new(alloc),
        }
    }

    /// One zone more, and what became of it.
    pub fn add(&mut self, alloc: Global, text: &str) -> Result<String, MemoryFault> {
        let text = bytes_of(alloc, text)?;
        let told = add_zone(alloc, &mut self.zones, text.as_slice())?;
        self.texts.push(text)?;
        line_of(alloc, told)
    }

    /// The zones.
    pub fn zones(&self) -> &ZoneSet {
        &self.zones
    }

    /// The same zones, made again.
    pub fn zones_again(&self, alloc: Global) -> Result<ZoneSet, MemoryFault> {
        let mut zones = ZoneSet::new(alloc);
        for text in self.texts.as_slice() {
            add_zone(alloc, &mut zones, text.as_slice())?;
        }
        Ok(zones)
    }
}

// Adds the zone of a text.
fn add_zone(alloc: Global, zones: &mut ZoneSet, text: &[u8]) -> Result<&'static str, MemoryFault> {
    let records = match read_records(alloc, Name::root(), text, PIECE) {
        Ok(records) => records,
        Err(_) => return Ok("no text"),
    };
    match Zone::build(alloc, records) {
        Ok(zone) => match zones.add(zone) {
            Ok(()) => Ok("added"),
            Err(_) => Ok("not added"),
        },
        Err(_) => Ok("no zone"),
    }
}

/// The numbers that have commas between; `-` is none.
pub fn ranks_of(alloc: Global, text: &str) -> Result<Ranks, MemoryFault> {
    let mut ranks = Ranks::new(alloc);
    for number in text.split(',') {
        if number != "-" {
            ranks.push(number_of(number).min(1_000) as u32)?;
        }
    }
    Ok(ranks)
}

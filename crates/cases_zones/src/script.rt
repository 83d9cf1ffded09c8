//! A script under way:
//!
//! - `new`: no records and no zones.
//! - `record TEXT`: a line of a zone text more; `lines FROM TO TEXT`: one for each number, which stands for `%`.
//! - `build`: the zone of the records, which are used up: its apex, how many records it holds, how many of them are rules and
//!   CNAMEs, and the records; or the fault. `make`: the same without the records.
//! - `add`: puts the zone that was built last into the set, or the fault and the apex of the zone that comes back.
//! - `fill FROM TO`: builds and adds zones of an SOA alone, `z1.`, `z2.` and so on, up to the first that is refused.
//! - `zones`: the apexes of the set, and how many rules and CNAMEs it holds.
//! - `deciding NAME`: the apex of the zone that decides. `set NAME KIND`: the records of that kind there, in that zone.
//! - `look NAME KIND`: what is found. `offer NAME`: what the zones offer as a source of rules.
//! - `looks FROM TO NAME KIND`: how often each case was found, with a number a look-up, which stands for `%` in
//!   the name.

use crate::found::{apex_text, found_text, offer_text, records_text};
use crate::texts::{PIECE, counted, push_fault, refused, told};
use cases_records::{Tally, read_records};
use cases_text::{bytes_of, name_of, number_of, push_lines, text_of};
use dns_name::Name;
use enum_base::{Bytes, MemoryFault};
use std::alloc::Global;
use zone_db::{AddFault, Zone, ZoneFault, ZoneSet};

#[derive(Drop)]
pub struct Script {
    // The origin of the texts that are read alone.
    origin: Name,
    // The lines that the next zone is built of.
    lines: Bytes,
    // The zone that was built last.
    built: Option<Zone>,
    zones: ZoneSet,
}

impl Script {
    pub fn new(alloc: Global) -> Script {
        Script {
            origin: Name::root(),
            lines: Bytes::new(alloc),
            built: None,
            zones: ZoneSet::new(alloc),
        }
    }

    /// Does what a line says, and tells what it comes to.
    pub fn read(&mut self, alloc: Global, verb: &str, rest: &str) -> Result<String, MemoryFault> {
        match verb {
            "new" => *self = Script::new(alloc),
            "origin" => self.origin = name_of(alloc, rest)?.unwrap_or(Name::root()),
            "record" => self.put(alloc, rest)?,
            "lines" => push_lines(alloc, &mut self.lines, rest)?,
            "text" => return told(alloc, self.origin, rest),
            "many" => return counted(alloc, self.origin, rest, PIECE),
            "once" => return counted(alloc, self.origin, rest, usize::MAX),
            "refused" => return refused(alloc, self.origin, rest),
            "looks" => return self.look_often(alloc, rest),
            "build" | "make" => return self.build(alloc, verb),
            "add" => return self.add(alloc),
            "fill" => return self.fill(alloc, rest),
            _ => return self.ask(alloc, verb, rest),
        }
        Ok(String::new(alloc))
    }

    fn put(&mut self, alloc: Global, line: &str) -> Result<(), MemoryFault> {
        self.lines.push_slice(bytes_of(alloc, line)?.as_slice())?;
        self.lines.push_slice(b"\n")
    }

    // Builds the zone of the records.
    fn build(&mut self, alloc: Global, verb: &str) -> Result<String, MemoryFault> {
        let lines = std::mem::replace(&mut self.lines, Bytes::new(alloc));
        let records = match read_records(alloc, Name::root(), lines.as_slice(), PIECE) {
            Ok(records) => records,
            Err(fault) => return text_fault(alloc, &fault),
        };
        match Zone::build(alloc, records) {
            Ok(zone) => {
                let told = zone_text(alloc, verb, &zone)?;
                self.built = Some(zone);
                Ok(told)
            }
            Err(fault) => zone_fault(alloc, fault),
        }
    }

    fn add(&mut self, alloc: Global) -> Result<String, MemoryFault> {
        match self.built.take() {
            Some(zone) => match self.zones.add(zone) {
                Ok(()) => Ok("\nadded".to_string(alloc)?),
                Err((fault, zone)) => self.take_back(alloc, fault, zone),
            },
            None => Ok("\nnothing is built".to_string(alloc)?),
        }
    }

    // The zone that was not added is the one that was built last.
    fn take_back(
        &mut self,
        alloc: Global,
        fault: AddFault,
        zone: Zone,
    ) -> Result<String, MemoryFault> {
        let apex = zone.apex();
        self.built = Some(zone);
        let fault = text_of(alloc, fault.words().as_slice())?;
        let apex = text_of(alloc, apex.text().as_slice())?;
        Ok(format!(in alloc; "\n{fault}, {apex} comes back")?)
    }

    // Adds zones of an SOA alone, up to the first that is refused.
    fn fill(&mut self, alloc: Global, rest: &str) -> Result<String, MemoryFault> {
        let (from, to) = rest.split_once(' ').unwrap_or((rest, ""));
        for number in number_of(from)..number_of(to).saturating_add(1) {
            let line = format!(in alloc; "z{number}. 60 SOA ns.example. host.example. 1 2 3 4 5")?;
            self.put(alloc, line.as_str())?;
            self.build(alloc, "make")?;
            let told = self.add(alloc)?;
            if self.built.is_some() {
                return Ok(told);
            }
        }
        Ok("\nadded".to_string(alloc)?)
    }

    // What the zones answer.
    fn ask(&self, alloc: Global, verb: &str, rest: &str) -> Result<String, MemoryFault> {
        let (text, kind) = rest.split_once(' ').unwrap_or((rest, ""));
        let name = name_of(alloc, text)?.unwrap_or(Name::root());
        let kind = number_of(kind).min(65_535) as u16;
        match verb {
            "zones" => self.list(alloc),
            "look" => found_text(alloc, self.zones.lookup(&name, kind)),
            "offer" => offer_text(alloc, &self.zones, &name),
            _ => match self.zones.deciding(&name) {
                Some(zone) if verb == "set" => records_text(alloc, zone.set(&name, kind)),
                Some(zone) => apex_text(alloc, zone),
                None => Ok("\nnone".to_string(alloc)?),
            },
        }
    }

    // Look-ups of names that differ by a number.
    fn look_often(&self, alloc: Global, rest: &str) -> Result<String, MemoryFault> {
        let mut lines = Bytes::new(alloc);
        push_lines(alloc, &mut lines, rest)?;
        let lines = text_of(alloc, lines.as_slice())?;
        let mut tally = Tally::new();
        for line in lines.lines() {
            let (text, kind) = line.split_once(' ').unwrap_or((line, ""));
            let name = name_of(alloc, text)?.unwrap_or(Name::root());
            let kind = number_of(kind).min(65_535) as u16;
            tally.count(&self.zones.lookup(&name, kind));
        }
        Ok(format!(in alloc; "\n{}", tally.told(alloc)?)?)
    }

    fn list(&self, alloc: Global) -> Result<String, MemoryFault> {
        let mut told = format!(in alloc; "\nrules and CNAMEs {}", self.zones.rules_and_aliases())?;
        for zone in self.zones.zones() {
            told.push_str(apex_text(alloc, zone)?.as_str())?;
        }
        Ok(told)
    }
}

// A zone as it was built: its apex, how many records it holds and how many of these are rules or CNAMEs, and the records.
fn zone_text(alloc: Global, verb: &str, zone: &Zone) -> Result<String, MemoryFault> {
    let apex = apex_text(alloc, zone)?;
    let (all, counted) = (zone.records().len(), zone.rules_and_aliases());
    let mut told = format!(in alloc; "{apex} records {all} rules and CNAMEs {counted}")?;
    if verb == "build" {
        told.push_str(records_text(alloc, zone.records())?.as_str())?;
    }
    Ok(told)
}

fn zone_fault(alloc: Global, fault: ZoneFault) -> Result<String, MemoryFault> {
    let fault = text_of(alloc, fault.words().as_slice())?;
    Ok(format!(in alloc; "\n{fault}")?)
}

fn text_fault(alloc: Global, fault: &zone_text::TextFault) -> Result<String, MemoryFault> {
    let mut told = Bytes::new(alloc);
    told.push_slice(b"\n")?;
    push_fault(&mut told, fault)?;
    text_of(alloc, told.as_slice())
}

//! The search in lists: what stands at a name, by passes over the records of a zone and by nothing else (RFC 1034, 4.3.2;
//! RFC 4592, 2.2 and 3.3).

use crate::listed::{Listed, word};
use crate::names::{is_below, parent};
use enum_base::MemoryFault;
use std::alloc::Global;

/// What is found for a name and a type: the case on a line, then each record.
pub fn searched(
    alloc: Global,
    zones: &[Listed],
    name: &str,
    kind: u16,
) -> Result<String, MemoryFault> {
    let Some(zone) = deciding(zones, name) else {
        return Ok("outside\n".to_string(alloc)?);
    };
    if let Some(cut) = highest_cut(zone, name) {
        return set(alloc, "cut", zone, cut, 2);
    }
    if zone.exists(name) {
        return at(alloc, zone, name, kind);
    }
    let source = format!(in alloc; "*.{}", encloser(zone, name))?;
    if zone.exists(source.as_str()) {
        return at(alloc, zone, source.as_str(), kind);
    }
    set(alloc, "no name", zone, zone.apex.as_str(), 6)
}

// The zone whose apex, of those at or above the name, is longest.
fn deciding<'a>(zones: &'a [Listed], name: &str) -> Option<&'a Listed> {
    let mut best: Option<&Listed> = None;
    for zone in zones {
        let longer = match best {
            Some(other) => zone.apex.len() > other.apex.len(),
            None => true,
        };
        if longer && is_below(name, zone.apex.as_str()) {
            best = Some(zone);
        }
    }
    best
}

// The highest delegated name at or above the name, the apex left out.
fn highest_cut<'a>(zone: &'a Listed, name: &str) -> Option<&'a str> {
    let mut highest: Option<&str> = None;
    for line in &zone.lines {
        let owner = line.owner.as_str();
        let higher = match highest {
            Some(other) => owner.len() < other.len(),
            None => true,
        };
        if line.kind == 2 && owner != zone.apex.as_str() && higher && is_below(name, owner) {
            highest = Some(owner);
        }
    }
    highest
}

// The closest name above that exists.
fn encloser<'a>(zone: &Listed, name: &'a str) -> &'a str {
    let mut above = parent(name);
    for _ in 0..name.len() {
        if zone.exists(above) {
            return above;
        }
        above = parent(above);
    }
    above
}

// What is found at a name that exists.
fn at(alloc: Global, zone: &Listed, name: &str, kind: u16) -> Result<String, MemoryFault> {
    if kind != 5 && kind != 255 && has(zone, name, 5) {
        return set(alloc, "alias", zone, name, 5);
    }
    let kind = if kind == 255 { least(zone, name) } else { kind };
    if has(zone, name, kind) {
        return set(alloc, "set", zone, name, kind);
    }
    set(alloc, "no set", zone, zone.apex.as_str(), 6)
}

fn has(zone: &Listed, name: &str, kind: u16) -> bool {
    for line in &zone.lines {
        if line.kind == kind && line.owner.as_str() == name {
            return true;
        }
    }
    false
}

// The least type at a name; 0 where it has no records.
fn least(zone: &Listed, name: &str) -> u16 {
    let mut least = 0;
    for line in &zone.lines {
        if line.owner.as_str() == name && (least == 0 || line.kind < least) {
            least = line.kind;
        }
    }
    least
}

// A case, and each record of a name and a type.
fn set(
    alloc: Global,
    case: &str,
    zone: &Listed,
    name: &str,
    kind: u16,
) -> Result<String, MemoryFault> {
    let mut told = format!(in alloc; "{case}\n")?;
    for line in &zone.lines {
        if line.kind == kind && line.owner.as_str() == name {
            let owner = if name.is_empty() { "." } else { name };
            let (word, fields) = (word(kind), line.fields.as_str());
            told.push_str(format!(in alloc; "  {owner} 60 IN {word} {fields}\n")?.as_str())?;
        }
    }
    Ok(told)
}

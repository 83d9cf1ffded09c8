//! Trials: sets of zones at random, and what they find beside what the search in their lists finds.

use crate::listed::Listed;
use crate::names::{apex, name_under, parent, written};
use crate::random::Random;
use crate::search::searched;
use cases_records::{Tally, case_of, push_records, read_records, records_found};
use cases_text::{name_of, text_of};
use dns_name::Name;
use enum_base::{Bytes, MemoryFault};
use std::alloc::Global;
use zone_db::{Found, Zone, ZoneSet};

/// Tries so many sets with so many look-ups each: how often each case came, or the first difference.
pub fn tried(
    alloc: Global,
    random: &mut Random,
    sets: u32,
    looks: u32,
) -> Result<String, MemoryFault> {
    let mut tally = Tally::new();
    for _ in 0..sets {
        let listed = made(alloc, random)?;
        let zones = built(alloc, random, listed.as_slice())?;
        for _ in 0..looks {
            if let Some(difference) = look(alloc, random, listed.as_slice(), &zones, &mut tally)? {
                return Ok(difference);
            }
        }
    }
    tally.told(alloc)
}

// One to three zones, no two of one apex.
fn made(alloc: Global, random: &mut Random) -> Result<Vec<Listed>, MemoryFault> {
    let mut zones: Vec<Listed> = Vec::new(alloc);
    for _ in 0..=random.below(3) {
        let apex = apex(random);
        let zone = Listed::made(alloc, random, apex)?;
        if !holds(zones.as_slice(), apex) {
            zones.push(zone)?;
        }
    }
    Ok(zones)
}

fn holds(zones: &[Listed], apex: &str) -> bool {
    for zone in zones {
        if zone.apex.as_str() == apex {
            return true;
        }
    }
    false
}

// The set of the zones' texts.
fn built(alloc: Global, random: &mut Random, listed: &[Listed]) -> Result<ZoneSet, MemoryFault> {
    let mut zones = ZoneSet::new(alloc);
    for zone in listed {
        let text = zone.text(alloc, random)?;
        add(alloc, &mut zones, text.as_str())?;
    }
    Ok(zones)
}

// A zone that does not build is left out, and then look-ups differ.
fn add(alloc: Global, zones: &mut ZoneSet, text: &str) -> Result<(), MemoryFault> {
    let Ok(records) = read_records(alloc, Name::root(), text.as_bytes(), text.len()) else {
        return Ok(());
    };
    let Ok(zone) = Zone::build(alloc, records) else {
        return Ok(());
    };
    match zones.add(zone) {
        Ok(()) => Ok(()),
        Err(_) => Err(MemoryFault),
    }
}

// Looks up a name in any case, both ways, and tells the difference.
fn look(
    alloc: Global,
    random: &mut Random,
    listed: &[Listed],
    zones: &ZoneSet,
    tally: &mut Tally,
) -> Result<Option<String>, MemoryFault> {
    let name = asked(alloc, random, listed)?;
    let kind = asked_kind(random);
    let spelt = written(alloc, random, name.as_str())?;
    let expected = searched(alloc, listed, name.as_str(), kind)?;
    let Some(asked) = name_of(alloc, spelt.as_str())? else {
        return Err(MemoryFault);
    };
    let found = zones.lookup(&asked, kind);
    tally.count(&found);
    let found = found_text(alloc, found)?;
    if found.as_str() == expected.as_str() {
        return Ok(None);
    }
    let difference = format!(in alloc; "{spelt} {kind}\nfound {found}searched {expected}")?;
    Ok(Some(difference))
}

// What the zones find: the case on a line, then each record.
fn found_text(alloc: Global, found: Found<'_>) -> Result<String, MemoryFault> {
    let mut told = Bytes::new(alloc);
    told.push_slice(case_of(&found).as_bytes())?;
    told.push_slice(b"\n")?;
    push_records(&mut told, records_found(found))?;
    text_of(alloc, told.as_slice())
}

// A name at random, or one at, above or below an owner.
fn asked(alloc: Global, random: &mut Random, listed: &[Listed]) -> Result<String, MemoryFault> {
    match random.below(6) {
        0 => {
            let apex = apex(random);
            name_under(alloc, random, apex, 3)
        }
        1 => Ok(parent(owner(random, listed)).to_string(alloc)?),
        2 => Ok(owner(random, listed).to_string(alloc)?),
        _ => {
            let owner = owner(random, listed);
            name_under(alloc, random, owner, 2)
        }
    }
}

// The owner of a record.
fn owner<'a>(random: &mut Random, listed: &'a [Listed]) -> &'a str {
    let Some(zone) = listed.get(random.below(listed.len())) else {
        return "";
    };
    match zone.lines.get(random.below(zone.lines.len())) {
        Some(line) => line.owner.as_str(),
        None => "",
    }
}

fn asked_kind(random: &mut Random) -> u16 {
    match random.below(8) {
        0 => 1,
        1 => 2,
        2 => 5,
        3 => 6,
        4 => 16,
        5 => 28,
        6 => 35,
        _ => 255,
    }
}

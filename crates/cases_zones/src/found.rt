//! What zones answer.

use cases_records::{case_of, push_records, records_found};
use cases_text::text_of;
use dns_name::Name;
use dns_wire::Record;
use enum_base::{Bytes, MemoryFault};
use naptr_data::{Naptr, Offer, RuleSource, SourceFault};
use std::alloc::Global;
use zone_db::{Found, Zone, ZoneSet, ZoneSource};

/// What a look-up finds: the case, and the records.
pub fn found_text(alloc: Global, found: Found<'_>) -> Result<String, MemoryFault> {
    let case = case_of(&found);
    let records = records_text(alloc, records_found(found))?;
    Ok(format!(in alloc; "\n{case}{records}")?)
}

/// Records, each on a line.
pub fn records_text(alloc: Global, records: &[Record]) -> Result<String, MemoryFault> {
    let mut lines = Bytes::new(alloc);
    push_records(&mut lines, records)?;
    let text = text_of(alloc, lines.as_slice())?;
    let mut told = String::new(alloc);
    for line in text.lines() {
        told.push('\n')?;
        told.push_str(line)?;
    }
    Ok(told)
}

/// What the zones offer as a source of rules.
pub fn offer_text(alloc: Global, zones: &ZoneSet, name: &Name) -> Result<String, MemoryFault> {
    let mut source = ZoneSource::new(zones);
    let offered = source.offer(alloc, name);
    offered_text(alloc, &offered)
}

fn offered_text(
    alloc: Global,
    offered: &Result<Offer, SourceFault>,
) -> Result<String, MemoryFault> {
    match offered {
        Ok(Offer::Unserved) => Ok("\nunserved".to_string(alloc)?),
        Ok(Offer::Alias(target)) => {
            let target = text_of(alloc, target.text().as_slice())?;
            Ok(format!(in alloc; "\nalias {target}")?)
        }
        Ok(Offer::Rules(rules)) => rules_text(alloc, rules.as_slice()),
        Err(SourceFault::Trouble) => Ok("\nTrouble".to_string(alloc)?),
        Err(SourceFault::Memory) => Err(MemoryFault),
    }
}

fn rules_text(alloc: Global, rules: &[Naptr]) -> Result<String, MemoryFault> {
    let mut told = format!(in alloc; "\nrules {}", rules.len())?;
    for rule in rules {
        let mut out = Bytes::new(alloc);
        rule.to_text(&mut out)?;
        let fields = text_of(alloc, out.as_slice())?;
        told.push_str(format!(in alloc; "\n  NAPTR {fields}")?.as_str())?;
    }
    Ok(told)
}

/// The apex of a zone.
pub fn apex_text(alloc: Global, zone: &Zone) -> Result<String, MemoryFault> {
    let apex = zone.apex();
    let apex = text_of(alloc, apex.text().as_slice())?;
    Ok(format!(in alloc; "\nzone {apex}")?)
}

//! Look-ups of many names.

use cases_records::Tally;
use cases_text::{name_of, number_of};
use dns_name::Name;
use enum_base::MemoryFault;
use std::alloc::Global;
use zone_db::ZoneSet;

#[derive(Drop)]
struct Asked {
    name: Name,
    kind: u16,
}

/// Looks up each line's name and type, and that so often.
pub fn counted(
    alloc: Global,
    set: &ZoneSet,
    text: &str,
    times: u32,
) -> Result<String, MemoryFault> {
    let list = list_of(alloc, text)?;
    let mut tally = Tally::new();
    for _ in 0..times {
        for one in &list {
            tally.count(&set.lookup(&one.name, one.kind));
        }
    }
    tally.told(alloc)
}

fn list_of(alloc: Global, text: &str) -> Result<Vec<Asked>, MemoryFault> {
    let mut list = Vec::new(alloc);
    for line in text.lines() {
        let (name, kind) = line.split_once(' ').unwrap_or((line, ""));
        let name = name_of(alloc, name)?.unwrap_or(Name::root());
        let kind = number_of(kind).min(65_535) as u16;
        list.push(Asked { name, kind })?;
    }
    Ok(list)
}

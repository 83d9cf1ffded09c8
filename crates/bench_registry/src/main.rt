//! A registry under as many commands as is wanted, to be timed: prints how many records its zone has in the end.
//!
//! The first word is how many rules the zone begins with, at most 99,998, the second how many more are added, each at the
//! next number. With 0 the zone is read and built, and no registry is made.
#![tactic(auto)]

use cases_records::read_records;
use dns_name::Name;
use enum_app::EnumApp;
use enum_base::{Bytes, MemoryFault, Text255};
use naptr_data::Naptr;
use registry::Registry;
use std::alloc::Global;
use std::{env, io};
use zone_build::Zone;

fn main(rt: HostRuntime) -> io::Result<()> {
    let mut counts = [0u32; 3];
    let mut place = 0usize;
    for word in env::args(&rt)? {
        if place < 3 {
            counts[place] = word.as_str().parse().unwrap_or(0);
            place += 1;
        }
    }
    match records_after(rt.alloc(), counts[1], counts[2]) {
        Ok(count) => println!(rt; "{count}"),
        Err(MemoryFault) => println!(rt; "no memory"),
    }
}

// How many records the zone has after the commands.
fn records_after(alloc: Global, rules: u32, commands: u32) -> Result<usize, MemoryFault> {
    let zone = zone_of(alloc, rules)?;
    if commands == 0 {
        return Ok(zone.records().len());
    }
    let mut registry = Registry::from_zone(alloc, zone)?;
    let rule = rule().ok_or(MemoryFault)?;
    for number in 0..commands {
        let owner = owner_of(alloc, number)?;
        if let Ok(owner) = Name::from_text(owner.as_bytes(), None) {
            let _ = registry.add(&EnumApp, &owner, &rule);
        }
    }
    Ok(registry.to_zone(alloc)?.records().len())
}

// A zone with so many rules, each at a number of its own.
fn zone_of(alloc: Global, rules: u32) -> Result<Zone, MemoryFault> {
    let mut text = Bytes::new(alloc);
    text.push_slice(b"4.4.e164.arpa. 1 IN SOA ns.example. host.example. 1 1 1 1 1\n")?;
    text.push_slice(b"4.4.e164.arpa. 1 IN NS ns.example.\n")?;
    for number in 0..rules {
        text.push_slice(owner_of(alloc, number)?.as_bytes())?;
        text.push_slice(b" 1 IN NAPTR 100 10 u E2U+sip !^.*$!sip:info@example.com! .\n")?;
    }
    match read_records(alloc, Name::root(), text.as_slice(), 65_536) {
        Ok(records) => match Zone::build(alloc, records) {
            Ok(zone) => Ok(zone),
            Err(_) => Err(MemoryFault),
        },
        Err(_) => Err(MemoryFault),
    }
}

// The name of a number of six digits.
fn owner_of(alloc: Global, number: u32) -> Result<String, MemoryFault> {
    let mut owner = String::new(alloc);
    let mut rest = number;
    for _ in 0..6u8 {
        let label = format!(in alloc; "{}.", rest % 10)?;
        owner.push_str(label.as_str())?;
        rest /= 10;
    }
    owner.push_str("4.4.e164.arpa.")?;
    Ok(owner)
}

// The rule that is added.
fn rule() -> Option<Naptr> {
    Some(Naptr {
        order: 100,
        preference: 20,
        flags: Text255::from_bytes(b"u")?,
        services: Text255::from_bytes(b"E2U+sip")?,
        regexp: Text255::from_bytes(b"!^.*$!sip:second@example.com!")?,
        replacement: Name::root(),
    })
}

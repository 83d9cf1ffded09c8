//! A registry under commands.

use cases_records::{push_records, read_records};
use cases_text::{bytes_of, line_of, name_of, number_of, text_of};
use dns_name::Name;
use dns_wire::Content;
use enum_app::EnumApp;
use enum_base::{Bytes, MemoryFault};
use naptr_data::Naptr;
use registry::{Registry, RegistryFault};
use snaptr_app::{SnaptrApp, UnaptrApp};
use std::alloc::Global;
use zone_build::Zone;

#[derive(Drop)]
pub struct Script {
    registry: Option<Registry>,
    client: Client,
}

// The application that rules are for.
#[derive(Clone, Copy)]
enum Client {
    Enum,
    Snaptr,
    Unaptr,
}

impl Script {
    pub fn new() -> Script {
        Script {
            registry: None,
            client: Client::Enum,
        }
    }

    // Does what a line says, and tells what it comes to.
    pub fn read(&mut self, alloc: Global, verb: &str, rest: &str) -> Result<String, MemoryFault> {
        match verb {
            "zone" => {
                let zone = zone_of(alloc, rest)?;
                self.registry = Some(Registry::from_zone(alloc, zone)?);
            }
            "enum" => self.client = Client::Enum,
            "snaptr" => self.client = Client::Snaptr,
            "unaptr" => self.client = Client::Unaptr,
            _ => return self.command(alloc, verb, rest),
        }
        Ok(String::new(alloc))
    }

    // Does a command, or tells what the registry holds.
    fn command(&mut self, alloc: Global, verb: &str, rest: &str) -> Result<String, MemoryFault> {
        let client = self.client;
        let Some(registry) = &mut self.registry else {
            return Ok(String::new(alloc));
        };
        let (owner, fields) = rest.split_once(' ').unwrap_or((rest, ""));
        let at = name_of(alloc, owner)?.unwrap_or(Name::root());
        match verb {
            "add" => told(
                alloc,
                added(registry, client, &at, &rule_of(alloc, fields)?),
            ),
            "remove" => told(alloc, registry.remove(&at, &rule_of(alloc, fields)?)),
            "alias" => {
                let target = name_of(alloc, fields)?.unwrap_or(Name::root());
                told(alloc, registry.set_alias(&at, &target))
            }
            "noalias" => told(alloc, registry.drop_alias(&at)),
            "rules" => {
                let count = registry.rules_of(alloc, &at)?.as_slice().len();
                let answer = format!(in alloc; "{count}")?;
                line_of(alloc, answer.as_str())
            }
            "fill" => filled(alloc, registry, &at, number_of(fields)),
            "show" => shown(alloc, registry),
            _ => Ok(String::new(alloc)),
        }
    }
}

fn added(
    registry: &mut Registry,
    client: Client,
    owner: &Name,
    rule: &Naptr,
) -> Result<(), RegistryFault> {
    match client {
        Client::Enum => registry.add(&EnumApp, owner, rule),
        Client::Snaptr => registry.add(&SnaptrApp, owner, rule),
        Client::Unaptr => registry.add(&UnaptrApp, owner, rule),
    }
}

// Adds so many rules of ENUM that differ in their order alone: how many were added, and the refusal of the next.
fn filled(
    alloc: Global,
    registry: &mut Registry,
    owner: &Name,
    count: u32,
) -> Result<String, MemoryFault> {
    for order in 0..count {
        let fields = format!(in alloc;
            "{order} 10 \"u\" \"E2U+sip\" \"!^.*$!sip:info@example.com!\" ."
        )?;
        if let Err(fault) = registry.add(&EnumApp, owner, &rule_of(alloc, fields.as_str())?) {
            let answer = format!(in alloc; "{order} {fault:?}")?;
            return line_of(alloc, answer.as_str());
        }
    }
    let answer = format!(in alloc; "{count}")?;
    line_of(alloc, answer.as_str())
}

// What became of a command.
fn told(alloc: Global, done: Result<(), RegistryFault>) -> Result<String, MemoryFault> {
    match done {
        Ok(()) => line_of(alloc, "ok"),
        Err(fault) => {
            let answer = format!(in alloc; "{fault:?}")?;
            line_of(alloc, answer.as_str())
        }
    }
}

// The records of the zone of a registry, each in a line.
fn shown(alloc: Global, registry: &Registry) -> Result<String, MemoryFault> {
    let zone = registry.to_zone(alloc)?;
    let mut out = Bytes::new(alloc);
    out.push_slice(b"\n")?;
    push_records(&mut out, zone.records())?;
    text_of(alloc, out.as_slice())
}

// The zone of a text.
fn zone_of(alloc: Global, text: &str) -> Result<Zone, MemoryFault> {
    let bytes = bytes_of(alloc, text)?;
    match read_records(alloc, Name::root(), bytes.as_slice(), 4_096) {
        Ok(records) => match Zone::build(alloc, records) {
            Ok(zone) => Ok(zone),
            Err(_) => Err(MemoryFault),
        },
        Err(_) => Err(MemoryFault),
    }
}

// The rule of six fields.
fn rule_of(alloc: Global, fields: &str) -> Result<Naptr, MemoryFault> {
    let line = format!(in alloc; ". 1 IN NAPTR {fields}\\n")?;
    let bytes = bytes_of(alloc, line.as_str())?;
    match read_records(alloc, Name::root(), bytes.as_slice(), 4_096) {
        Ok(records) => match records.as_slice() {
            [one, ..] => match &one.content {
                Content::Naptr(rule) => Ok(*rule),
                _ => Err(MemoryFault),
            },
            [] => Err(MemoryFault),
        },
        Err(_) => Err(MemoryFault),
    }
}

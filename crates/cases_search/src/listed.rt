//! Zones as lists of lines, made at random.

use crate::names::{is_below, name_under, written};
use crate::random::Random;
use enum_base::MemoryFault;
use std::alloc::Global;

/// A record: its owner, its type, and its fields as a zone text has them.
#[derive(Drop)]
pub struct Line {
    pub owner: String,
    pub kind: u16,
    pub fields: String,
}

/// A zone: its apex, and its records, those of a set in canonical order.
#[derive(Drop)]
pub struct Listed {
    pub apex: String,
    pub lines: Vec<Line>,
}

impl Listed {
    /// A zone of an SOA and at most 19 other records.
    pub fn made(alloc: Global, random: &mut Random, apex: &str) -> Result<Listed, MemoryFault> {
        let mut zone = Listed {
            apex: apex.to_string(alloc)?,
            lines: Vec::new(alloc),
        };
        zone.put(alloc, apex, 6, 0)?;
        for number in 1..=random.below(20) {
            let owner = name_under(alloc, random, apex, 3)?;
            let kind = kind(random, owner.as_str());
            if zone.takes(owner.as_str(), kind) {
                zone.put(alloc, owner.as_str(), kind, number)?;
            }
        }
        Ok(zone)
    }

    fn put(
        &mut self,
        alloc: Global,
        owner: &str,
        kind: u16,
        number: usize,
    ) -> Result<(), MemoryFault> {
        let owner = owner.to_string(alloc)?;
        let fields = fields(alloc, kind, number)?;
        self.lines.push(Line {
            owner,
            kind,
            fields,
        })?;
        Ok(())
    }

    // Whether a record of that type may stand there: a CNAME alone.
    fn takes(&self, owner: &str, kind: u16) -> bool {
        for line in &self.lines {
            if line.owner.as_str() == owner && (kind == 5 || line.kind == 5) {
                return false;
            }
        }
        true
    }

    /// Whether a name exists: the apex, or a name with a record at or below it (RFC 4592, 2.2.2).
    pub fn exists(&self, name: &str) -> bool {
        if name == self.apex.as_str() {
            return true;
        }
        for line in &self.lines {
            if is_below(line.owner.as_str(), name) {
                return true;
            }
        }
        false
    }

    /// The zone text, its lines in another order and the owners in any case.
    pub fn text(&self, alloc: Global, random: &mut Random) -> Result<String, MemoryFault> {
        let mut text = String::new(alloc);
        for line in &self.lines {
            let owner = written(alloc, random, line.owner.as_str())?;
            let (word, fields) = (word(line.kind), line.fields.as_str());
            text = if random.below(2) == 0 {
                format!(in alloc; "{owner} 60 {word} {fields}\n{text}")?
            } else {
                format!(in alloc; "{text}{owner} 60 {word} {fields}\n")?
            };
        }
        Ok(text)
    }
}

// The type of a record there: none but a name without a wildcard is delegated.
fn kind(random: &mut Random, owner: &str) -> u16 {
    match random.below(5) {
        0 => 1,
        1 if owner.starts_with("*.") => 16,
        1 => 2,
        2 => 5,
        3 => 16,
        _ => 35,
    }
}

/// The name of a type.
pub fn word(kind: u16) -> &'static str {
    match kind {
        1 => "A",
        2 => "NS",
        5 => "CNAME",
        6 => "SOA",
        16 => "TXT",
        _ => "NAPTR",
    }
}

// Fields that come later in RDATA order where the number is greater.
fn fields(alloc: Global, kind: u16, number: usize) -> Result<String, MemoryFault> {
    Ok(match kind {
        1 => format!(in alloc; "192.0.2.{number}")?,
        2 | 5 => format!(in alloc; "n{number}.example.")?,
        6 => format!(in alloc; "ns.example. host.example. 1 2 3 4 5")?,
        16 => format!(in alloc; "\"t{number}\"")?,
        _ => format!(in alloc; "{number} 0 \"u\" \"E2U+sip\" \"!^.*$!sip:a@b.example!\" .")?,
    })
}

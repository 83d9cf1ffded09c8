//! A script under way: the zones, and what is asked.

use crate::scripted::ScriptedLink;
use crate::told::{push_answer, same_answer};
use cases_records::{ZoneTexts, ranks_of};
use cases_text::{line_of, name_of, number_of};
use dns_name::Name;
use enum_base::MemoryFault;
use naptr_data::RuleSource;
use responder::LoopLink;
use std::alloc::Global;
use wire_source::WireSource;
use zone_db::{Link, ZoneSource};

/// The zones so far.
#[derive(Drop)]
pub struct Script {
    texts: ZoneTexts,
}

impl Script {
    pub fn new(alloc: Global) -> Script {
        Script {
            texts: ZoneTexts::new(alloc),
        }
    }

    /// One zone more.
    pub fn add(&mut self, alloc: Global, text: &str) -> Result<String, MemoryFault> {
        self.texts.add(alloc, text)
    }

    /// What a source over a link to the zones offers: `FAILING FIRST NAME..`.
    pub fn ask(&self, alloc: Global, rest: &str) -> Result<String, MemoryFault> {
        let (failing, rest) = rest.split_once(' ').unwrap_or((rest, ""));
        let (first, names) = rest.split_once(' ').unwrap_or((rest, ""));
        let zones = self.texts.zones_again(alloc)?;
        let mut link = LoopLink::new(alloc, zones, ranks_of(alloc, failing)?);
        let mut told = String::new(alloc);
        let mut source = WireSource::new(alloc, &mut link, first_of(first));
        let mut files = ZoneSource::new(self.texts.zones());
        for word in names.split(' ') {
            let name = name_of(alloc, word)?.unwrap_or(Name::root());
            push_one(alloc, &mut source, &mut files, &name, &mut told)?;
        }
        let counts = link.counts();
        let (exchanges, faults) = (counts.exchanges, counts.faults);
        told.push_str(format!(in alloc; "; exchanges {exchanges}, faults {faults}")?.as_str())?;
        line_of(alloc, told.as_str())
    }
}

// What is offered for one name, and whether the zones offer the same.
fn push_one<L: Link>(
    alloc: Global,
    source: &mut WireSource<'_, L>,
    files: &mut ZoneSource<'_>,
    name: &Name,
    told: &mut String,
) -> Result<(), MemoryFault> {
    if !told.is_empty() {
        told.push_str(", ")?;
    }
    let answer = source.offer(alloc, name);
    push_answer(alloc, &answer, source.last_trouble(), told)?;
    let same = same_answer(&answer, &files.offer(alloc, name));
    told.push_str(if same { " as zones" } else { "" })?;
    Ok(())
}

/// What a source over a link with these replies offers: `FIRST NAME STEP..`.
pub fn reply(alloc: Global, rest: &str) -> Result<String, MemoryFault> {
    let (first, rest) = rest.split_once(' ').unwrap_or((rest, ""));
    let (word, steps) = rest.split_once(' ').unwrap_or((rest, ""));
    let name = name_of(alloc, word)?.unwrap_or(Name::root());
    let mut link = ScriptedLink::new(alloc, steps)?;
    let mut told = String::new(alloc);
    let mut source = WireSource::new(alloc, &mut link, first_of(first));
    let answer = source.offer(alloc, &name);
    push_answer(alloc, &answer, source.last_trouble(), &mut told)?;
    told.push_str(link.queries())?;
    line_of(alloc, told.as_str())
}

// The number of a first query.
fn first_of(word: &str) -> u16 {
    number_of(word).min(65_535) as u16
}

//! What a link in memory does.

use crate::query::{query_of, way_of};
use cases_records::ranks_of;
use cases_text::line_of;
use enum_base::{Failed, MemoryFault};
use responder::LoopLink;
use std::alloc::Global;
use zone_db::{Link, ZoneSet};

/// What each step comes to: `FAILING STEP..`.
pub fn steps_text(alloc: Global, zones: ZoneSet, text: &str) -> Result<String, MemoryFault> {
    let (failing, steps) = text.split_once(' ').unwrap_or((text, ""));
    let mut link = LoopLink::new(alloc, zones, ranks_of(alloc, failing)?);
    let mut told = String::new(alloc);
    for step in steps.split(' ') {
        let before = if told.is_empty() { "" } else { ", " };
        told.push_str(before)?;
        match taken(alloc, &mut link, step)? {
            Ok(()) => {
                let held = link.held().len();
                told.push_str(format!(in alloc; "{held} bytes")?.as_str())?;
            }
            Err(Failed) => told.push_str("failed")?,
        }
    }
    let counts = link.counts();
    let (exchanges, faults) = (counts.exchanges, counts.faults);
    told.push_str(format!(in alloc; "; exchanges {exchanges}, faults {faults}")?.as_str())?;
    line_of(alloc, told.as_str())
}

// One step.
fn taken<L: Link>(
    alloc: Global,
    link: &mut L,
    step: &str,
) -> Result<Result<(), Failed>, MemoryFault> {
    if step == "aim" {
        return Ok(link.aim("127.0.0.1:53"));
    }
    let query = query_of(alloc, "- ex. 6")?;
    if step == "silent" {
        return Ok(link.exchange(way_of(step), &[0; 11]));
    }
    let bytes = query.as_slice();
    if bytes.len() > 512 {
        return Ok(Err(Failed));
    }
    Ok(link.exchange(way_of(step), bytes))
}

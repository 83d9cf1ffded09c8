//! Cases of RDATA.

use crate::rules::shown;
use cases_text::{digits_of, number_of, text_of};
use enum_base::{Bytes, MemoryFault};
use naptr_data::{InFault, Naptr, RdataFault};
use std::alloc::Global;

/// The answer of a case.
pub fn answer(alloc: Global, verb: &str, rest: &str) -> Result<String, MemoryFault> {
    let (text, places) = rest.split_once(' ').unwrap_or((rest, ""));
    let message = digits_of(alloc, text)?;
    let (from, to) = places.split_once(' ').unwrap_or((places, ""));
    let (from, to) = (number_of(from) as usize, number_of(to) as usize);
    match verb {
        "bare" => bare(alloc, message.as_slice()),
        _ => inside(alloc, message.as_slice(), from, to),
    }
}

// The rule of whole RDATA, and whether it is written again as it was.
fn bare(alloc: Global, rdata: &[u8]) -> Result<String, MemoryFault> {
    match Naptr::read(rdata) {
        Ok(rule) => {
            let mut again = Bytes::new(alloc);
            rule.write(&mut again)?;
            let fields = shown(alloc, &rule)?;
            let same = again.as_slice() == rdata;
            Ok(format!(in alloc; "{fields} {same}")?)
        }
        Err(RdataFault::Short { at }) => Ok(format!(in alloc; "Short {at}")?),
        Err(RdataFault::BadName { at }) => Ok(format!(in alloc; "BadName {at}")?),
        Err(RdataFault::Trailing { at }) => Ok(format!(in alloc; "Trailing {at}")?),
    }
}

fn inside(alloc: Global, message: &[u8], from: usize, to: usize) -> Result<String, MemoryFault> {
    if from > to || to > message.len() {
        return Ok("no place".to_string(alloc)?);
    }
    match Naptr::read_in(message, from, to) {
        Ok(rule) => shown(alloc, &rule),
        Err(InFault::Shape { at }) => Ok(format!(in alloc; "Shape {at}")?),
        Err(InFault::Name(fault)) => text_of(alloc, fault.words().as_slice()),
    }
}

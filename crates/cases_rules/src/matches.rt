//! Cases of matches.
ghost use Rattle.std.specs.Prelude.{◌≡◌, ◌<◌};

use cases_text::bytes_of;
use enum_base::{MemoryFault, Steps};
use posix_ere::Ere;
use std::alloc::Global;
use std::marker::Brand;
use std::sync::ledger::{Blank, Ledger};
use submatch::{Matcher, Span};

/// The answer of a case.
pub fn answer(alloc: Global, verb: &str, rest: &str) -> Result<String, MemoryFault> {
    let (ere, text) = rest.split_once(" in ").unwrap_or((rest, ""));
    let text = bytes_of(alloc, text)?;
    let fold = verb == "fold";
    found::<Brand>(alloc, ere.as_bytes(), text.as_slice(), fold, Blank::new(1))
}

// The spans of the best match, or `none`.
fn found<L: Ledger>(
    alloc: Global,
    ere: &[u8],
    text: &[u8],
    fold: bool,
    blank: Blank,
) -> Result<String, MemoryFault>
    requires name { blank.name ≡ L.name }
    requires parts { blank.parts ≡ L.parts }
    requires some { 0 < L.parts }
{
    if ere.len() > 255 || text.len() > 255 {
        return Ok("too long".to_string(alloc)?);
    }
    let Ok(ere) = Ere::read(alloc, ere) else {
        return Ok("no expression".to_string(alloc)?);
    };
    let mut steps = Steps::<L>::start(blank);
    let Some(spans) = Matcher::new(&ere).find(alloc, text, fold, &mut steps)? else {
        return Ok("none".to_string(alloc)?);
    };
    let mut told = format!(in alloc; "{}-{}", spans.whole().from, spans.whole().to)?;
    for group in 1..ere.groups().min(9) + 1 {
        add_group(&mut told, spans.group(group as u8))?;
    }
    Ok(told)
}

// Adds the span of a group, or `unset`.
fn add_group(told: &mut String, group: Option<Span>) -> Result<(), MemoryFault> {
    match group {
        Some(span) => Ok(write!(told, " {}-{}", span.from, span.to)?),
        None => Ok(told.push_str(" unset")?),
    }
}

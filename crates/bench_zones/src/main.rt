//! Look-ups and walks over zone files, as often as is wanted: what `bench/run` times. The program takes no time itself.
//!
//! Each line is a verb, the name of a file, and how often its lines are gone over, 1 where that is left out:
//!
//! - `zone FILE`: the zone of the file is added; how many records the zones hold
//! - `looks FILE TIMES`: looks up each line's `NAME TYPE`; how often each case was found
//! - `walks FILE TIMES`: resolves each line's number; how many ends there were, the ranks of the longest path, and how many
//!   loops
#![tactic(auto)]

mod looks;
mod walks;
mod zones;

use cases_text::number_of;
use enum_base::MemoryFault;
use std::alloc::Global;
use std::rt::Files;
use std::{fs, io};
use zone_db::ZoneSet;

fn main(rt: HostRuntime) -> io::Result<()> {
    let mut set = ZoneSet::new(rt.alloc());
    for line in rt.lines(rt.alloc()) {
        let line = line?;
        print_line(&rt, &mut set, line.as_str())?;
    }
    Ok(())
}

// A line with its answer.
fn print_line(
    rt: &(impl Files + Print + AllocGlobal),
    set: &mut ZoneSet,
    line: &str,
) -> io::Result<()> {
    let (verb, rest) = line.split_once(' ').unwrap_or((line, ""));
    let (path, times) = rest.split_once(' ').unwrap_or((rest, "1"));
    let text = fs::read_to_string(rt, path)?;
    match told(rt.alloc(), set, verb, text.as_str(), number_of(times)) {
        Ok(told) => println!(rt; "{line} => {told}"),
        Err(MemoryFault) => println!(rt; "{line} => no memory"),
    }
}

fn told(
    alloc: Global,
    set: &mut ZoneSet,
    verb: &str,
    text: &str,
    times: u32,
) -> Result<String, MemoryFault> {
    match verb {
        "zone" => zones::added(alloc, set, text),
        "looks" => looks::counted(alloc, set, text, times),
        _ => walks::counted(alloc, set, text, times),
    }
}

//! Walks of many numbers.

use ddds_walk::{End, Report, walk};
use enum_app::{EnumApp, Number, default_apex};
use enum_base::MemoryFault;
use service_field::Wanted;
use std::alloc::Global;
use zone_db::{ZoneSet, ZoneSource};

#[derive(Drop)]
struct Sum {
    ends: usize,
    longest: usize,
    loops: usize,
}

/// Resolves each line's number, and that so often.
pub fn counted(
    alloc: Global,
    set: &ZoneSet,
    text: &str,
    times: u32,
) -> Result<String, MemoryFault> {
    let mut sum = Sum {
        ends: 0,
        longest: 0,
        loops: 0,
    };
    let limit = set.rules_and_aliases().saturating_add(1);
    for _ in 0..times {
        for line in text.lines() {
            let Some(report) = report_of(alloc, set, line, limit)? else {
                return Ok(format!(in alloc; "no number: {line}")?);
            };
            put_report(&mut sum, &report);
        }
    }
    Ok(format!(in alloc;
        "ends {}, longest {}, loops {}",
        sum.ends, sum.longest, sum.loops
    )?)
}

fn put_report(sum: &mut Sum, report: &Report) {
    match report {
        Report::Ends(ends) => put_ends(sum, ends.as_slice()),
        Report::Loop(_) => sum.loops = sum.loops.saturating_add(1),
    }
}

fn put_ends(sum: &mut Sum, ends: &[End]) {
    sum.ends = sum.ends.saturating_add(ends.len());
    for end in ends {
        sum.longest = sum.longest.max(end.ranks.as_slice().len());
    }
}

// The report of a number; at most so many domains are asked for.
fn report_of(
    alloc: Global,
    set: &ZoneSet,
    line: &str,
    limit: u32,
) -> Result<Option<Report>, MemoryFault> {
    let Ok(number) = Number::parse(line.as_bytes()) else {
        return Ok(None);
    };
    let Ok(key) = number.key(&default_apex()) else {
        return Ok(None);
    };
    let mut source = ZoneSource::new(set);
    let report = walk(
        alloc,
        &EnumApp,
        Wanted::Any,
        &number.aus(),
        &[key],
        &mut source,
        limit.max(1),
    );
    match report {
        Ok(report) => Ok(Some(report)),
        Err(_) => Err(MemoryFault),
    }
}

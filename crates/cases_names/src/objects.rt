//! Cases of objects in memory: `shelf FAILING.. | STEP | ..`, `source FAILING.. | BYTES | STEP | ..` and `sink MOST
//! FAILING.. | STEP | ..`, with the numbers of the calls that are to fail. Each step tells its answer.

use cases_text::{bytes_of, number_of, text_of};
use enum_base::{
    Failed, LoadFault, MemShelf, MemSink, MemSource, MemoryFault, Ranks, Shelf, Sink, Source, load,
    write_three, write_two, write_whole,
};
use std::alloc::Global;

/// The answer of a case.
pub fn answer(alloc: Global, verb: &str, rest: &str) -> Result<String, MemoryFault> {
    let (first, steps) = rest.split_once('|').unwrap_or((rest, ""));
    match verb {
        "shelf" => shelf(alloc, first, steps),
        "source" => source(alloc, first, steps),
        _ => sink(alloc, first, steps),
    }
}

// `put NAME BYTES`, `fetch NAME`, `read`: a read takes four bytes at most.
fn shelf(alloc: Global, failing: &str, steps: &str) -> Result<String, MemoryFault> {
    let mut shelf = MemShelf::new(alloc, ranks(alloc, failing)?);
    let mut told = String::new(alloc);
    for step in steps.split('|') {
        let (verb, rest) = split(step);
        let (name, more) = split(rest);
        match verb {
            "put" => shelf.put(name, bytes_of(alloc, more)?.as_slice())?,
            _ => told.push_str(shelved(alloc, &mut shelf, verb, name)?.as_str())?,
        }
    }
    Ok(told)
}

fn shelved<S: Shelf>(
    alloc: Global,
    shelf: &mut S,
    verb: &str,
    name: &str,
) -> Result<String, MemoryFault> {
    if verb == "read" {
        let mut buf = [0; 4];
        return match shelf.read(&mut buf) {
            Ok(count) => Ok(format!(in alloc; "{count}; ")?),
            Err(Failed) => Ok("Failed; ".to_string(alloc)?),
        };
    }
    match shelf.fetch(name) {
        Ok(true) => Ok("there; ".to_string(alloc)?),
        Ok(false) => Ok("absent; ".to_string(alloc)?),
        Err(Failed) => Ok("Failed; ".to_string(alloc)?),
    }
}

// `BYTES`, and then `read`, which takes four bytes at most, and `load MOST`, which reads to the end.
fn source(alloc: Global, failing: &str, rest: &str) -> Result<String, MemoryFault> {
    let (bytes, steps) = rest.split_once('|').unwrap_or((rest, ""));
    let input = bytes_of(alloc, bytes.trim())?;
    let mut source = MemSource::new(alloc, input, ranks(alloc, failing)?);
    let mut told = String::new(alloc);
    for step in steps.split('|') {
        let (verb, most) = split(step);
        told.push_str(taken(alloc, &mut source, verb, most)?.as_str())?;
    }
    Ok(told)
}

fn taken<I: Source>(
    alloc: Global,
    source: &mut I,
    verb: &str,
    most: &str,
) -> Result<String, MemoryFault> {
    if verb == "read" {
        let mut buf = [0; 4];
        return match source.read(&mut buf) {
            Ok(count) => Ok(format!(in alloc; "{count}; ")?),
            Err(Failed) => Ok("Failed; ".to_string(alloc)?),
        };
    }
    match load(alloc, number_of(most) as usize, source) {
        Ok(bytes) => Ok(format!(in alloc; "{} bytes; ", bytes.as_slice().len())?),
        Err(LoadFault::TooLarge) => Ok("TooLarge; ".to_string(alloc)?),
        Err(LoadFault::Failed) => Ok("Failed; ".to_string(alloc)?),
        Err(LoadFault::Memory) => Err(MemoryFault),
    }
}

// `write BYTES`, `whole BYTES`, `two ONE OTHER`, `three ONE OTHER`, whose third is a dot; and what the sink holds.
fn sink(alloc: Global, first: &str, steps: &str) -> Result<String, MemoryFault> {
    let (most, failing) = split(first);
    let most = number_of(most).max(1) as usize;
    let mut sink = MemSink::new(alloc, most, ranks(alloc, failing)?);
    let mut told = String::new(alloc);
    for step in steps.split('|') {
        let (verb, rest) = split(step);
        told.push_str(written(&mut sink, verb, rest))?;
    }
    let held = text_of(alloc, sink.held())?;
    Ok(format!(in alloc; "{told}held {held}")?)
}

fn written<S: Sink>(sink: &mut S, verb: &str, rest: &str) -> &'static str {
    let (one, other) = split(rest);
    let (one, other) = (one.as_bytes(), other.as_bytes());
    let written = match verb {
        "write" => {
            return match sink.write(one) {
                Ok(0) => "0; ",
                Ok(1) => "1; ",
                Ok(_) => "more; ",
                Err(Failed) => "Failed; ",
            };
        }
        "whole" => write_whole(sink, one),
        "two" => write_two(sink, one, other),
        _ => write_three(sink, one, other, b"."),
    };
    match written {
        Ok(()) => "done; ",
        Err(Failed) => "Failed; ",
    }
}

// A word, and what comes after it.
fn split(text: &str) -> (&str, &str) {
    let text = text.trim();
    text.split_once(' ').unwrap_or((text, ""))
}

fn ranks(alloc: Global, text: &str) -> Result<Ranks, MemoryFault> {
    let mut ranks = Ranks::new(alloc);
    for word in text.split(' ') {
        if let Ok(rank) = word.parse::<u32>() {
            ranks.push(rank)?;
        }
    }
    Ok(ranks)
}

//! Cases of streams of messages.

use cases_text::{digits_of, hex_of};
use dns_wire::Framer;
use enum_base::MemoryFault;
use std::alloc::Global;

/// The answer of a case.
pub fn answer(alloc: Global, verb: &str, rest: &str) -> Result<String, MemoryFault> {
    match verb {
        "frames" => frames(alloc, rest),
        "bytes" => byte_by_byte(alloc, rest),
        _ => everywhere(alloc, rest),
    }
}

// Pieces are fed, and `?` asks for the next message.
fn frames(alloc: Global, rest: &str) -> Result<String, MemoryFault> {
    let mut framer = Framer::new(alloc);
    let mut told = String::new(alloc);
    for step in rest.split(' ') {
        if step == "?" {
            let next = next(alloc, &mut framer)?;
            told.push_str(next.as_str())?;
            told.push_str(" ")?;
        } else {
            framer.feed(digits_of(alloc, step)?.as_slice())?;
        }
    }
    Ok(told.trim_end().to_string(alloc)?)
}

fn next(alloc: Global, framer: &mut Framer) -> Result<String, MemoryFault> {
    match framer.next() {
        Some(place) => hex_of(alloc, &framer.held()[place]),
        None => Ok("None".to_string(alloc)?),
    }
}

// The messages of a stream that is fed in two pieces, at every byte; they are told once where they are the same everywhere.
fn everywhere(alloc: Global, rest: &str) -> Result<String, MemoryFault> {
    let stream = digits_of(alloc, rest)?;
    let whole = given(alloc, stream.as_slice(), 0)?;
    for cut in 0..stream.len() + 1 {
        let cut_here = given(alloc, stream.as_slice(), cut)?;
        if cut_here.as_str() != whole.as_str() {
            return Ok(format!(in alloc; "cut at {cut}: {cut_here}")?);
        }
    }
    Ok(format!(in alloc; "{} cuts: {}", stream.len() + 1, whole.trim_end())?)
}

// The messages of a stream that is fed a byte at a time, asked for after each.
fn byte_by_byte(alloc: Global, rest: &str) -> Result<String, MemoryFault> {
    let stream = digits_of(alloc, rest)?;
    let mut framer = Framer::new(alloc);
    let mut told = String::new(alloc);
    for byte in stream.as_slice() {
        framer.feed(&[*byte])?;
        push_all(alloc, &mut framer, &mut told)?;
    }
    Ok(told.trim_end().to_string(alloc)?)
}

// The messages of a stream that is fed in two pieces, asked for after each.
fn given(alloc: Global, stream: &[u8], cut: usize) -> Result<String, MemoryFault> {
    let mut framer = Framer::new(alloc);
    let mut told = String::new(alloc);
    let (first, second) = stream.split_at(cut.min(stream.len()));
    framer.feed(first)?;
    push_all(alloc, &mut framer, &mut told)?;
    framer.feed(second)?;
    push_all(alloc, &mut framer, &mut told)?;
    Ok(told)
}

// Every message that is whole so far.
fn push_all(alloc: Global, framer: &mut Framer, told: &mut String) -> Result<(), MemoryFault> {
    for _ in 0..framer.held().len() {
        match framer.next() {
            Some(place) => {
                let shown = hex_of(alloc, &framer.held()[place])?;
                told.push_str(shown.as_str())?;
                told.push_str(" ")?;
            }
            None => return Ok(()),
        }
    }
    Ok(())
}

//! A script under way: the zones.

use crate::link::steps_text;
use crate::query::{query_of, way_of};
use cases_records::ZoneTexts;
use cases_text::{digits_of, hex_of, line_of, text_of};
use dns_wire::decode;
use enum_base::{Bytes, MemoryFault};
use message_text::print_message;
use responder::{Answered, answer};
use std::alloc::Global;

/// The zones so far.
#[derive(Drop)]
pub struct Script {
    texts: ZoneTexts,
}

impl Script {
    pub fn new(alloc: Global) -> Script {
        Script {
            texts: ZoneTexts::new(alloc),
        }
    }

    /// One zone more.
    pub fn add(&mut self, alloc: Global, text: &str) -> Result<String, MemoryFault> {
        self.texts.add(alloc, text)
    }

    /// The bytes of a reply.
    pub fn bytes(&self, alloc: Global, rest: &str) -> Result<String, MemoryFault> {
        let (way, message) = rest.split_once(' ').unwrap_or((rest, ""));
        let query = digits_of(alloc, message)?;
        let mut reply = Bytes::new(alloc);
        match answer(
            alloc,
            self.texts.zones(),
            query.as_slice(),
            way_of(way),
            &mut reply,
        )? {
            Answered::Silent => line_of(alloc, "silent"),
            Answered::Reply => line_of(alloc, hex_of(alloc, reply.as_slice())?.as_str()),
        }
    }

    /// The lines of a reply.
    pub fn ask(&self, alloc: Global, verb: &str, rest: &str) -> Result<String, MemoryFault> {
        let (way, rest) = rest.split_once(' ').unwrap_or((rest, ""));
        let query = query_of(alloc, rest)?;
        let mut reply = Bytes::new(alloc);
        match answer(
            alloc,
            self.texts.zones(),
            query.as_slice(),
            way_of(way),
            &mut reply,
        )? {
            Answered::Silent => line_of(alloc, "silent"),
            Answered::Reply => lines_of(
                alloc,
                reply.as_slice(),
                if verb == "size" { 1 } else { 200 },
            ),
        }
    }

    /// What a link to the zones does.
    pub fn link(&self, alloc: Global, rest: &str) -> Result<String, MemoryFault> {
        steps_text(alloc, self.texts.zones_again(alloc)?, rest)
    }
}

// The first lines of a message, and how many bytes it has.
fn lines_of(alloc: Global, message: &[u8], most: usize) -> Result<String, MemoryFault> {
    let mut told = String::new(alloc);
    match decode(alloc, message) {
        Ok(read) => {
            let printed = print_message(alloc, &read)?;
            let text = text_of(alloc, printed.as_slice())?;
            for line in text.lines().take(most) {
                told.push_str("\n  ")?;
                told.push_str(line)?;
            }
        }
        Err(_) => told.push_str("\n  no message")?,
    }
    let size = message.len();
    told.push_str(format!(in alloc; "\n  {size} bytes")?.as_str())?;
    Ok(told)
}

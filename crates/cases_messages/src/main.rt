//! Runs cases of messages, one a line, which are hexadecimal, and prints each line with what it comes to. The file stdout
//! has the answers by RFC 1035, 2181 and 6891, worked by hand.
//!
//! - `decode MESSAGE`: the lines of the message, or its fault
//! - `encode MESSAGE`: the bytes of the message that is read, written; of a long one how many. The message that is read back
//!   has to give the same bytes
//! - `copy MESSAGE`: owner, TTL, class, type and RDATA of a copy of each record
//! - `cuts MESSAGE`: from which length on the front of the message has which fault
//! - `chain N`: the owner behind a chain of N pointers, each to the one before it
//! - `labels N`: the same, with a label before each pointer
//! - `far N`: the owner that is a pointer to a name N bytes into the RDATA of the record before it
//! - `frames STEP..`: a step is a piece of a stream, or `?` for the next message
//! - `everywhere STREAM`: the messages of a stream that is fed in two pieces, cut at every byte
//! - `bytes STREAM`: the messages of a stream that is fed a byte at a time
#![tactic(auto)]

mod chains;
mod messages;
mod streams;

use cases_text::{Cases, line_of, print_cases};
use enum_base::MemoryFault;
use std::alloc::Global;
use std::io;

fn main(rt: HostRuntime) -> io::Result<()> {
    let mut cases = MessageCases;
    print_cases(&rt, &mut cases)
}

#[derive(Drop)]
struct MessageCases;

impl Cases for MessageCases {
    fn told(&mut self, alloc: Global, line: &str) -> Result<String, MemoryFault> {
        let (verb, rest) = line.split_once(' ').unwrap_or((line, ""));
        let answer = match verb {
            "decode" | "encode" | "copy" | "cuts" => messages::answer(alloc, verb, rest)?,
            "chain" | "labels" | "far" => chains::answer(alloc, verb, rest)?,
            _ => streams::answer(alloc, verb, rest)?,
        };
        line_of(alloc, answer.as_str())
    }
}

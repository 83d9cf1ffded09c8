//! Runs cases of replies, one a line, and prints each line with what it comes to. The file stdout has the answers by
//! RFC 1034, 1035, 2308, 4592 and 6891 and the rules of this project on replies; `replies.py` works them out in its own
//! way.
//!
//! - `zone TEXT`: a zone more, by its text
//! - `ask WAY SIZE NAME TYPE`: the reply to a query for the name and the type of that number, which came by `datagram`
//!   or `stream`, with options of that size, or without any where it is `-`: the lines of the message, and how many
//!   bytes it has
//! - `size WAY SIZE NAME TYPE`: the same, of the message its first line alone
//! - `bytes WAY MESSAGE`: the bytes of the reply to that message, which is hexadecimal, or `silent`
//! - `link FAILING STEP..`: a link to the zones that fails at these calls, which have `,` between; a step is `aim`, or
//!   `datagram` or `stream`, by which a query for the SOA of `ex.` goes, or `silent`, by which 11 bytes go. What is
//!   told is how many bytes are held after each step, or `failed`, and the two counts at the end
#![tactic(auto)]

mod link;
mod query;
mod script;

use cases_text::{Cases, print_cases};
use enum_base::MemoryFault;
use responder::{found_is_ready, one_reply, some_reply, stream_is_whole};
use script::Script;
use std::alloc::Global;
use std::io;

fn main(rt: HostRuntime) -> io::Result<()> {
    let mut script = Script::new(rt.alloc());
    print_cases(&rt, &mut script)?;
    found_is_ready();
    one_reply();
    some_reply();
    stream_is_whole();
    Ok(())
}

impl Cases for Script {
    fn told(&mut self, alloc: Global, line: &str) -> Result<String, MemoryFault> {
        let (verb, rest) = line.split_once(' ').unwrap_or((line, ""));
        match verb {
            "zone" => self.add(alloc, rest),
            "bytes" => self.bytes(alloc, rest),
            "link" => self.link(alloc, rest),
            _ => self.ask(alloc, verb, rest),
        }
    }
}

//! Runs cases of a source over a link, one a line, and prints each line with what it comes to. The file stdout has
//! the answers by RFC 1034, 1035, 2308 and 3403 and the rules of this project on the reading of replies; `wire.py`
//! works out the replies and the answers in its own way.
//!
//! - `zone TEXT`: a zone more, by its text
//! - `ask FAILING FIRST NAME..`: a link to the zones that fails at these calls, which have `,` between, and a source
//!   over it whose first query has that number is asked for each name in turn: what it offers, and the trouble where
//!   there is some; whether the same zones without a link offer the same; and the counts of the link at the end
//! - `reply FIRST NAME STEP..`: the same for one name over a link whose exchanges come to these steps: a reply, which
//!   is hexadecimal, or `-`, which fails; and the way and the number of each query
#![tactic(auto)]

mod script;
mod scripted;
mod told;

use cases_text::{Cases, print_cases};
use enum_base::MemoryFault;
use script::Script;
use std::alloc::Global;
use std::io;
use wire_source::{honest_replies_are_offers, one_reading};

fn main(rt: HostRuntime) -> io::Result<()> {
    let mut script = Script::new(rt.alloc());
    print_cases(&rt, &mut script)?;
    honest_replies_are_offers();
    one_reading();
    Ok(())
}

impl Cases for Script {
    fn told(&mut self, alloc: Global, line: &str) -> Result<String, MemoryFault> {
        let (verb, rest) = line.split_once(' ').unwrap_or((line, ""));
        match verb {
            "zone" => self.add(alloc, rest),
            "ask" => self.ask(alloc, rest),
            _ => script::reply(alloc, rest),
        }
    }
}

//! Runs commands over registries, one a line, and prints each with what it comes to. The file stdout has the answers by the
//! rules of provisioning; `registry.py` works them out in its own way.
//!
//! - `zone TEXT`: the registry of the zone of that text. `enum`, `snaptr`, `unaptr`: the application that rules are for.
//! - `add OWNER RULE`, `remove OWNER RULE`, with the six fields of a rule as a zone text has them; `alias OWNER TARGET`;
//!   `noalias OWNER`: `ok`, or the refusal.
//! - `fill OWNER COUNT` adds so many rules of ENUM whose orders are 0, 1 and so on: how many were added, and the refusal.
//! - `rules OWNER`: how many rules are there. `show`: the records of the zone.
#![tactic(auto)]

mod script;

use cases_text::{Cases, print_cases};
use enum_base::MemoryFault;
use registry::{one_change, one_refusal};
use rule_check::rule_or_fault;
use script::Script;
use std::alloc::Global;
use std::io;

fn main(rt: HostRuntime) -> io::Result<()> {
    let mut script = Script::new();
    print_cases(&rt, &mut script)?;
    laws();
    Ok(())
}

impl Cases for Script {
    fn told(&mut self, alloc: Global, line: &str) -> Result<String, MemoryFault> {
        let (verb, rest) = line.split_once(' ').unwrap_or((line, ""));
        self.read(alloc, verb, rest)
    }
}

// Each law once.
fn laws() {
    one_refusal();
    one_change();
    rule_or_fault();
}

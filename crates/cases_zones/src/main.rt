//! Runs cases of zone texts and of zones, one a line, and prints each line with what it comes to. The file stdout has the
//! answers by RFC 1034, 1035, 2181 and 4592, and by the rules of this project on zones, worked by hand.
//!
//! Of zone texts (module `texts`): `origin NAME` sets the origin; `text TEXT`, `many TEXT` and `once TEXT` read a text.
//!
//! The other verbs are those of zones (module `script`).
#![tactic(auto)]

mod found;
mod script;
mod texts;

use cases_text::{Cases, print_cases};
use enum_base::MemoryFault;
use script::Script;
use std::alloc::Global;
use std::io;
use zone_db::{
    found_is_offered, found_is_readable, one_add_fault, one_answer, one_zone, one_zone_fault,
};

fn main(rt: HostRuntime) -> io::Result<()> {
    let mut script = Script::new(rt.alloc());
    print_cases(&rt, &mut script)?;
    laws();
    Ok(())
}

impl Cases for Script {
    fn told(&mut self, alloc: Global, line: &str) -> Result<String, MemoryFault> {
        let (verb, rest) = line.split_once(' ').unwrap_or((line, ""));
        self.read(alloc, verb, rest)
    }
}

// Each law once.
fn laws() {
    one_zone();
    one_zone_fault();
    one_add_fault();
    one_answer();
    found_is_offered();
    found_is_readable();
}

//! Runs cases of expressions, of matches, of substitutions and of walks, one a line, and prints each with its answer. The
//! file stdout has the answers, worked out by hand from POSIX (IEEE Std 1003.1, chapter 9) and RFC 3402 and 3403.
//!
//! - `ere ERE`: the weight and the groups of an expression, or its fault. `part ERE at PATH`: the node at the end of a path
//!   of child numbers, and how many children it has. `lists ERE in BYTE`: whether the bracket that is the whole
//!   expression lists a byte.
//! - `match ERE in TEXT`, and `fold ERE in TEXT` without regard to case: the spans of the best match, that of the whole and
//!   then those of groups 1 to 9.
//! - `split RULE`: the expression, the replacement, its place, the delimiter and whether case is ignored. `apply RULE on
//!   TEXT`: what the rule gives after `>`, and the length of a long output. `check RULE`: the first fault.
//! - `takes APP ORDER PREFERENCE FLAGS SERVICES REGEXP REPLACEMENT`: whether provisioning takes the rule, or its first fault.
//! - The other verbs are those of walks (module `script`).
#![tactic(auto)]

mod app;
mod cache;
mod checks;
mod expressions;
mod kept;
mod listed;
mod matches;
mod print;
mod script;
mod substitutions;

use cases_text::{Cases, line_of, print_cases};
use enum_base::MemoryFault;
use script::Script;
use std::alloc::Global;
use std::io;

fn main(rt: HostRuntime) -> io::Result<()> {
    let mut script = Script::new(rt.alloc());
    print_cases(&rt, &mut script)
}

impl Cases for Script {
    fn told(&mut self, alloc: Global, line: &str) -> Result<String, MemoryFault> {
        let (verb, rest) = line.split_once(' ').unwrap_or((line, ""));
        let answer = match verb {
            "ere" | "part" | "lists" => expressions::answer(alloc, verb, rest)?,
            "match" | "fold" => matches::answer(alloc, verb, rest)?,
            "split" | "apply" | "check" => substitutions::answer(alloc, verb, rest)?,
            "takes" => checks::answer(alloc, rest)?,
            _ => return self.read(alloc, verb, rest),
        };
        line_of(alloc, answer.as_str())
    }
}

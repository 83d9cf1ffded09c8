//! Look-ups over random small zones beside a search in lists.
//!
//! `search SEED SETS LOOKS` makes so many sets of one to three zones, with wildcards, cuts, CNAMEs and empty non-terminals,
//! and looks up so many names in each, in any case of letters: owners, names above and below them, and names elsewhere. Each
//! answer, with its records, has to be that of the search in lists of module `search`, which knows nothing of the library.
//! What is printed is how often each case came, or the first difference.
//!
//! The file stdout has the counts by `counts.py`, which makes the same zones and searches them in a third way.
#![tactic(auto)]

mod listed;
mod names;
mod random;
mod search;
mod trial;

use cases_text::{Cases, line_of, number_of, print_cases};
use enum_base::MemoryFault;
use random::Random;
use std::alloc::Global;
use std::io;
use trial::tried;

fn main(rt: HostRuntime) -> io::Result<()> {
    let mut cases = Trials;
    print_cases(&rt, &mut cases)
}

#[derive(Drop)]
struct Trials;

impl Cases for Trials {
    fn told(&mut self, alloc: Global, line: &str) -> Result<String, MemoryFault> {
        let rest = line.strip_prefix("search ").unwrap_or("");
        let (seed, rest) = rest.split_once(' ').unwrap_or((rest, ""));
        let (sets, looks) = rest.split_once(' ').unwrap_or((rest, ""));
        let mut random = Random::new(number_of(seed));
        let answer = tried(alloc, &mut random, number_of(sets), number_of(looks))?;
        line_of(alloc, answer.as_str())
    }
}

//! Whole runs over objects in memory. The input is a list of verbs, one a line, and each line is printed again, so that
//! the output reads as a transcript; the file stdout is worked out from the formats:
//!
//! - `# TEXT` says what comes next, and `new` begins anew: no files, no input, and calls that do not fail;
//! - `file NAME` begins a file, and `input` the input; `: TEXT` adds a line to what was begun last, `- TEXT` a text without
//!   its line feed, and `lines FROM TO TEXT` a line for each number, which stands for `%` in it, and the next one for `&`;
//! - `fail shelf N`, `fail input N`, `fail out N` and `fail err N` let call N of an object fail, and `most N` lets the
//!   output take at most N bytes at a time;
//! - `run WORD|WORD|..` runs these words, and `run` alone none. It prints the exit code, each line of the output after
//!   `> `, and each line of the faults after `! `; a last line without a line feed stands after `>~` or `!~`.
#![tactic(auto)]

mod scene;

use cases_text::{Cases, print_cases, text_of};
use enum_base::MemoryFault;
use scene::Scene;
use std::alloc::Global;
use std::io;

fn main(rt: HostRuntime) -> io::Result<()> {
    let mut scene = Scene::new(rt.alloc());
    print_cases(&rt, &mut scene)
}

impl Cases for Scene {
    fn told(&mut self, alloc: Global, line: &str) -> Result<String, MemoryFault> {
        let (verb, rest) = line.split_once(' ').unwrap_or((line, ""));
        if verb != "run" {
            self.set(alloc, verb, rest)?;
            return Ok(String::new(alloc));
        }
        let ended = self.run(alloc, line.strip_prefix("run "))?;
        let mut told = format!(in alloc; "\n= {}", ended.code)?;
        push_marked(alloc, &mut told, '>', ended.out.held())?;
        push_marked(alloc, &mut told, '!', ended.err.held())?;
        Ok(told)
    }
}

// Appends each line after a mark.
fn push_marked(
    alloc: Global,
    told: &mut String,
    mark: char,
    bytes: &[u8],
) -> Result<(), MemoryFault> {
    let text = text_of(alloc, bytes)?;
    for line in text.split_inclusive('\n') {
        told.push('\n')?;
        told.push(mark)?;
        told.push(if line.ends_with('\n') { ' ' } else { '~' })?;
        told.push_str(line.trim_end_matches('\n'))?;
    }
    Ok(())
}

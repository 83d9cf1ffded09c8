//! The objects that a run is given.

use cases_text::{bytes_of, number_of, push_lines};
use enum_base::{Bytes, MemShelf, MemSink, MemSource, MemoryFault, Ranks};
use enum_top::run;
use std::alloc::Global;

/// A run that ended.
#[derive(Drop)]
pub(crate) struct Ended {
    pub(crate) code: u8,
    pub(crate) out: MemSink,
    pub(crate) err: MemSink,
}

/// Files by their names, the input, and which calls are to fail.
#[derive(Drop)]
pub(crate) struct Scene {
    files: Vec<(String, Bytes)>,
    input: Bytes,
    // whether texts are added to the input, and not to the last file
    into_input: bool,
    shelf: Vec<u32>,
    source: Vec<u32>,
    out: Vec<u32>,
    err: Vec<u32>,
    most: u32,
}

impl Scene {
    /// No files, no input, and calls that do not fail.
    pub(crate) fn new(alloc: Global) -> Scene {
        Scene {
            files: Vec::new(alloc),
            input: Bytes::new(alloc),
            into_input: false,
            shelf: Vec::new(alloc),
            source: Vec::new(alloc),
            out: Vec::new(alloc),
            err: Vec::new(alloc),
            most: 4096,
        }
    }

    /// Does what a verb says.
    pub(crate) fn set(&mut self, alloc: Global, verb: &str, rest: &str) -> Result<(), MemoryFault> {
        match verb {
            "new" => *self = Scene::new(alloc),
            "file" => {
                let name = rest.to_string(alloc)?;
                self.files.push((name, Bytes::new(alloc)))?;
                self.into_input = false;
            }
            "input" => {
                self.input = Bytes::new(alloc);
                self.into_input = true;
            }
            "fail" => self.fail(rest)?,
            "most" => self.most = number_of(rest),
            _ => self.add(alloc, verb, rest)?,
        }
        Ok(())
    }

    // Adds text to what was begun last.
    fn add(&mut self, alloc: Global, verb: &str, rest: &str) -> Result<(), MemoryFault> {
        let Some(begun) = self.begun() else {
            return Ok(());
        };
        if verb == "lines" {
            return push_lines(alloc, begun, rest);
        }
        begun.push_slice(bytes_of(alloc, rest)?.as_slice())?;
        if verb == ":" {
            begun.push_slice(b"\n")?;
        }
        Ok(())
    }

    // The input or the last file.
    fn begun(&mut self) -> Option<&mut Bytes> {
        if self.into_input {
            return Some(&mut self.input);
        }
        match self.files.last_mut() {
            Some(file) => Some(&mut file.1),
            None => None,
        }
    }

    // A call of an object is to fail.
    fn fail(&mut self, rest: &str) -> Result<(), MemoryFault> {
        let (object, call) = rest.split_once(' ').unwrap_or((rest, ""));
        let calls = match object {
            "shelf" => &mut self.shelf,
            "input" => &mut self.source,
            "out" => &mut self.out,
            _ => &mut self.err,
        };
        calls.push(number_of(call))?;
        Ok(())
    }

    /// Runs words that have `|` between them, or none.
    pub(crate) fn run(&self, alloc: Global, words: Option<&str>) -> Result<Ended, MemoryFault> {
        let mut list = Vec::new(alloc);
        if let Some(words) = words {
            for word in words.split('|') {
                list.push(word.to_string(alloc)?)?;
            }
        }
        let mut shelf = MemShelf::new(alloc, calls(alloc, &self.shelf)?);
        for file in &self.files {
            shelf.put(file.0.as_str(), file.1.as_slice())?;
        }
        let mut bytes = Bytes::new(alloc);
        bytes.push_slice(self.input.as_slice())?;
        let mut input = MemSource::new(alloc, bytes, calls(alloc, &self.source)?);
        let mut out = MemSink::new(alloc, self.most.max(1) as usize, calls(alloc, &self.out)?);
        let mut err = MemSink::new(alloc, 4096, calls(alloc, &self.err)?);
        let code = run(
            alloc,
            list.as_slice(),
            &mut shelf,
            &mut input,
            &mut out,
            &mut err,
        )
        .code();
        Ok(Ended { code, out, err })
    }
}

fn calls(alloc: Global, listed: &[u32]) -> Result<Ranks, MemoryFault> {
    let mut ranks = Ranks::new(alloc);
    for call in listed {
        ranks.push(*call)?;
    }
    Ok(ranks)
}

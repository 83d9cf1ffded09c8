//! Reads a case a line, and prints it with what the adapters answer. The file stdout has the answers, worked out by hand.
//!
//! `file NAME`: a fetch and three reads of at most four bytes, all by one shelf. `denied NAME`: the same of a shelf whose
//! system lets no file be opened. `read BYTES`, `unreadable`, `interrupted`: three reads of these bytes, of a file that was
//! opened for writing, and of a reader whose calls are interrupted. `write ROOM BYTES`, `out BYTES`, `stuck BYTES`, `closed
//! BYTES`: two writes of the bytes and one of nothing, to a row of so many bytes, to a file, to a writer that cannot pass on
//! what it took, and to a file that was opened for reading.
#![tactic(auto)]

mod broken;
mod denied;
mod steps;

use adapters::{FileShelf, StdSink, StdSource};
use broken::{Interrupted, Stuck};
use denied::Denied;
use std::alloc::{AllocError, Global};
use std::{fs, io};
use steps::{fetch, read_thrice, write_thrice};

fn main(rt: HostRuntime) -> io::Result<()> {
    let alloc = rt.alloc();
    let mut shelf = FileShelf::new(&rt);
    for line in rt.lines(alloc) {
        let line = line?;
        let (verb, rest) = line.split_once(' ').unwrap_or((line.as_str(), ""));
        let told = if verb == "file" {
            fetch(alloc, &mut shelf, rest)?
        } else {
            told_of(&rt, verb, rest)?
        };
        println!(rt; "{line} => {told}")?;
    }
    Ok(())
}

// What the objects of one case answer.
fn told_of(rt: &HostRuntime, verb: &str, rest: &str) -> io::Result<String> {
    let alloc = rt.alloc();
    let told = match verb {
        "denied" => fetch(alloc, &mut FileShelf::new(&Denied), rest)?,
        "read" => read_thrice(alloc, &mut StdSource::new(rest.as_bytes()))?,
        "unreadable" => read_thrice(alloc, &mut StdSource::new(fs::create(rt, "out.txt")?))?,
        "interrupted" => read_thrice(alloc, &mut StdSource::new(Interrupted))?,
        "write" => written(alloc, rest)?,
        "out" => {
            let mut sink = StdSink::new(fs::create(rt, "out.txt")?);
            let told = write_thrice(alloc, &mut sink, rest)?;
            let held = fs::read_to_string(rt, "out.txt")?;
            format!(in alloc; "{told}; {held}")?
        }
        "stuck" => write_thrice(alloc, &mut StdSink::new(Stuck), rest)?,
        _ => write_thrice(alloc, &mut StdSink::new(fs::open(rt, "uk.db")?), rest)?,
    };
    Ok(told)
}

// Writes to a row of at most 16 bytes.
fn written(alloc: Global, rest: &str) -> Result<String, AllocError> {
    let (room, bytes) = rest.split_once(' ').unwrap_or((rest, ""));
    let room = room.parse::<usize>().unwrap_or(0).min(16);
    let mut row = [0; 16];
    write_thrice(alloc, &mut StdSink::new(&mut row[..room]), bytes)
}

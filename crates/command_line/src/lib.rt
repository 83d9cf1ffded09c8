//! The command line: the top call over the system's files and streams.
#![tactic(auto)]

mod exit;
mod help;
mod itself;

use adapters::{FileShelf, StdSink, StdSource};
use enum_top::{Object, Status, Why, run};
use exit::exit_code;
use itself::asked_of_itself;
use std::process::ExitCode;
use std::{env, io};

/// Does what the words of the command line ask for, and says how the process ends.
pub fn answer(rt: &HostRuntime) -> ExitCode {
    let words = match read_words(rt) {
        Ok(words) => words,
        Err(error) if error.kind() == io::ErrorKind::OutOfMemory => {
            let _ = eprintln!(rt; "enumd: memory");
            return exit_code(Status::Refused(Why::Memory));
        }
        // Words that are no text are no request.
        Err(_) => Vec::new(rt.alloc()),
    };
    match asked_of_itself(words.as_slice()) {
        Some(itself) => tell(rt, itself.text()),
        None => exit_code(run_words(rt, words.as_slice())),
    }
}

// The words of the command line, without the program's own name.
fn read_words(rt: &HostRuntime) -> io::Result<Vec<String>> {
    let words = env::args(rt)?.skip(1).collect(rt.alloc())?;
    Ok(words)
}

// The run of these words over the system's files and streams.
fn run_words(rt: &HostRuntime, words: &[String]) -> Status {
    let mut shelf = FileShelf::new(rt);
    let mut input = StdSource::new(rt.stdin());
    let mut out = StdSink::new(rt.stdout());
    let mut err = StdSink::new(rt.stderr());
    run(
        rt.alloc(),
        words,
        &mut shelf,
        &mut input,
        &mut out,
        &mut err,
    )
}

// Prints a text that the program tells of itself.
fn tell(rt: &HostRuntime, text: &str) -> ExitCode {
    if rt.print(text).is_err() {
        let _ = eprintln!(rt; "enumd: outside output");
        return exit_code(Status::Refused(Why::Outside(Object::Output)));
    }
    ExitCode::SUCCESS
}

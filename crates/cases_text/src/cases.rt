//! The main loop of a case program.

use enum_base::MemoryFault;
use std::alloc::Global;
use std::io;

/// What a case program does with a line.
pub trait Cases {
    /// What is printed after the line: an answer by `line_of`, or lines, each after a line feed; or nothing.
    fn told(&mut self, alloc: Global, line: &str) -> Result<String, MemoryFault>;
}

/// Reads lines to the end of the input, and prints each with what is told of it.
pub fn print_cases<C: Cases>(
    rt: &(impl Input + Print + AllocGlobal),
    cases: &mut C,
) -> io::Result<()> {
    for line in rt.lines(rt.alloc()) {
        let line = line?;
        print_case(rt, cases, line.as_str())?;
    }
    Ok(())
}

fn print_case<C: Cases>(
    rt: &(impl Print + AllocGlobal),
    cases: &mut C,
    line: &str,
) -> io::Result<()> {
    if line.is_empty() || line.starts_with('#') {
        return println!(rt; "{line}");
    }
    match cases.told(rt.alloc(), line) {
        Ok(told) => println!(rt; "{line}{told}"),
        Err(MemoryFault) => println!(rt; "{line} => no memory"),
    }
}

/// An answer of one line.
pub fn line_of(alloc: Global, answer: &str) -> Result<String, MemoryFault> {
    Ok(format!(in alloc; " => {answer}")?)
}

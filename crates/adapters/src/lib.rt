//! The system's files and streams as objects of the outside. In each module what talks to the system is a call of std or a
//! function of its own, and what its answer says is told by a function with clauses.
#![tactic(auto)]

mod faults;
mod file_shelf;
mod std_sink;
mod std_source;

pub use file_shelf::FileShelf;
pub use std_sink::StdSink;
pub use std_source::StdSource;

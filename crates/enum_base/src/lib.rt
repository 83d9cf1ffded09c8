//! What all crates of the product stand on: the outside as traits with counts of faults, objects in
//! memory for them, short texts, decimal numbers, and lists that contracts see as lists.
#![tactic(auto)]

mod buffer;
mod bytes;
mod calls;
mod escape;
mod fault;
mod fold;
mod given;
mod input;
mod list;
mod mem_shelf;
mod mem_sink;
mod mem_source;
mod number;
mod outside;
mod steps;
mod text;
mod words;
mod write;

pub use buffer::Buffer;
pub use bytes::Bytes;
pub use escape::{decimal_escape, escaped_byte};
pub use fault::{Failed, MemoryFault};
pub use fold::{fold_byte, same_folded};
pub use given::Given;
pub use input::{LoadFault, load};
pub use list::{List, Ranks};
pub use mem_shelf::MemShelf;
pub use mem_sink::MemSink;
pub use mem_source::MemSource;
pub use number::{NumFault, push_number, read_u16, read_u32};
pub use outside::{Shelf, Sink, Source};
pub use steps::Steps;
pub use text::Text255;
pub use words::{FaultWords, fault_at, fault_named};
pub use write::{write_three, write_two, write_whole};

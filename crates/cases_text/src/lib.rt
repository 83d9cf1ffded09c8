//! What the case programs share: their main loop, bytes as text, and what stands in the lines of several of them.
//!
//! A program reads a case a line and prints the line again with what it comes to; its file `stdout` has the answers,
//! from a standard or by hand. An empty line and one that begins with `#` are headings.
#![tactic(auto)]

mod bytes;
mod cases;
mod hexadecimal;
mod lines;

pub use bytes::{bytes_of, field_of, name_of, number_of, text_of};
pub use cases::{Cases, line_of, print_cases};
pub use hexadecimal::{digits_of, hex_of};
pub use lines::push_lines;

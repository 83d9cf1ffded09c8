//! Messages as text: a line for the header, for each question and for each record.
#![tactic(auto)]

mod kind;
mod message;

pub use message::print_message;

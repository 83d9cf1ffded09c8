//! The matcher of extended regular expressions: the greatest parse at the least start.
#![tactic(auto)]

mod column;
mod compile;
mod joined;
pub mod laws;
mod lookup;
mod made;
mod matcher;
mod rebuild;
mod row;
mod search;
mod spans;
mod table;
mod turns;

pub use matcher::Matcher;
pub use spans::{Span, Spans};

//! Rules that are asked of a server over a link (RFC 1034, 5.3.3; RFC 3403).
#![tactic(auto)]

mod laws;
mod query;
mod reading;
mod records;
mod rules;
mod source;
mod tries;
mod trouble;
mod words;

pub use laws::{honest_replies_are_offers, one_reading};
pub use source::WireSource;
pub use trouble::Trouble;
